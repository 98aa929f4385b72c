//! Bars, and names that fit into a width.
ghost use Rattle.std.specs.Prelude.{◌≡◌, ◌+◌, ◌*◌, ◌<◌, ◌^◌, ◌++◌, nat_le, length, OnOk};
ghost use Rattle.svg_texts.specs.Bars as spec;
ghost use Rattle.svg_lines.specs.inside.Hollow.{hollow};

use crate::elements::{colour, ink};
use crate::put::Pixels;
use crate::shapes::{put_rect, put_words};
use rt_base::NoMemory;
use std::alloc::{AllocError, Global};

/// Whether a text fits into a width, at so many pixels a letter and so many beside.
pub fn fits(text: &[u8], letter: u8, beside: u8, w: Pixels) -> bool
    ensures { result ≡ nat_le (letter * length text.now + beside) w }
{
    u128::from(letter) * text.len() as u128 + u128::from(beside) <= w
}

/// The name, else the short one, else nothing.
pub fn fit<'a>(name: &'a [u8], short: &'a [u8], w: Pixels) -> &'a [u8]
    ensures { result.now ≡ spec.fit name.now short.now w }
{
    if fits(name, 7, 2, w) {
        name
    } else if fits(short, 7, 2, w) {
        short
    } else {
        &[]
    }
}

/// Words, where there are any.
pub fn put_words_if(
    out: &mut Vec<u8>,
    class: &[u8],
    x: Pixels,
    y: Pixels,
    words: &[u8],
) -> Result<(), AllocError>
    ensures { OnOk result (out.new.items ≡ out.old.items ++ spec.words_if class.now x y words.now) }
{
    if words.is_empty() {
        return Ok(());
    }
    put_words(out, class, x, y, words)
}

/// A position and a size.
#[derive(Clone, Copy)]
pub struct Area {
    pub x: Pixels,
    pub y: Pixels,
    pub w: Pixels,
    pub h: Pixels,
}

/// The inside of a hollow bar.
fn put_hollow(out: &mut Vec<u8>, full: bool, a: Area) -> Result<(), AllocError>
    requires x { a.x < 2 ^ 100 }
    requires y { a.y < 2 ^ 100 }
    ensures { OnOk result (out.new.items ≡ out.old.items ++ hollow full a.x a.y a.w a.h) }
{
    if full {
        return Ok(());
    }
    let (w, h) = (a.w.saturating_sub(6), a.h.saturating_sub(6));
    put_rect(out, b"o", a.x + 3, a.y + 3, w, h)
}

/// A bar of a task: full where it works, hollow where it runs and does no unit.
#[tactic(auto, using(std::proofs::Common::append_assoc), unfolding(svg_texts::specs::Bars::bar))]
pub fn put_bar(
    alloc: Global,
    out: &mut Vec<u8>,
    full: bool,
    task: u64,
    a: Area,
    words: &[u8],
) -> Result<(), NoMemory>
    requires x { a.x < 2 ^ 100 }
    requires y { a.y < 2 ^ 100 }
    requires w { a.w < 2 ^ 100 }
    ensures { OnOk result (out.new.items
        ≡ out.old.items ++ spec.bar full task a.x a.y a.w a.h words.now) }
{
    put_rect(out, &colour(alloc, task)?, a.x, a.y, a.w, a.h)?;
    put_hollow(out, full, a)?;
    let class = if full { ink(task) } else { b"m" };
    put_words_if(out, class, a.x + a.w / 2, a.y + 12, words)?;
    Ok(())
}
