//! The lines of a picture: rectangles, words and paths.
ghost use Rattle.std.specs.Prelude.{◌≡◌, ◌++◌, OnOk, IfOk, codes, decimal};
ghost use Rattle.svg_texts.specs.Shapes as spec;
ghost use Rattle.svg_lines.specs.inside.Paths.{path_from, path_to};

use crate::put::{Pixels, put, put_attribute, put_number, put_pixels};
use std::alloc::{AllocError, Global};

#[tactic(auto, using(std::proofs::Common::append_assoc), unfolding(svg_texts::specs::Shapes::rect))]
pub fn put_rect(
    out: &mut Vec<u8>,
    class: &[u8],
    x: Pixels,
    y: Pixels,
    w: Pixels,
    h: Pixels,
) -> Result<(), AllocError>
    ensures { OnOk result (out.new.items ≡ out.old.items ++ spec.rect class.now x y w h) }
{
    put(out, b"<rect")?;
    put_attribute(out, b"class", class)?;
    put_pixels(out, b"x", x)?;
    put_pixels(out, b"y", y)?;
    put_pixels(out, b"width", w)?;
    put_pixels(out, b"height", h)?;
    put(out, b"/>\n")
}

#[tactic(auto, using(std::proofs::Common::append_assoc), unfolding(svg_texts::specs::Shapes::words))]
pub fn put_words(
    out: &mut Vec<u8>,
    class: &[u8],
    x: Pixels,
    y: Pixels,
    words: &[u8],
) -> Result<(), AllocError>
    ensures { OnOk result (out.new.items ≡ out.old.items ++ spec.words class.now x y words.now) }
{
    put(out, b"<text")?;
    put_attribute(out, b"class", class)?;
    put_pixels(out, b"x", x)?;
    put_pixels(out, b"y", y)?;
    put(out, b">")?;
    put(out, words)?;
    put(out, b"</text>\n")
}

/// A path up to the point where it begins.
#[tactic(auto, using(std::proofs::Common::append_assoc))]
fn open_path(out: &mut Vec<u8>, class: &[u8], x: Pixels, y: Pixels) -> Result<(), AllocError>
    ensures { OnOk result (out.new.items ≡ out.old.items ++ path_to class.now x y) }
{
    put(out, b"<path")?;
    put_attribute(out, b"class", class)?;
    put(out, b" d=\"M")?;
    put_number(out, x)?;
    put(out, b" ")?;
    put_number(out, y)
}

/// The rest of a path.
#[tactic(auto, using(std::proofs::Common::append_assoc))]
fn close_path(out: &mut Vec<u8>, moves: &[u8]) -> Result<(), AllocError>
    ensures { OnOk result (out.new.items ≡ out.old.items ++ path_from moves.now) }
{
    put(out, moves)?;
    put(out, b"\"/>\n")
}

/// A path from a point on.
#[tactic(auto, using(crate::proofs::Paths::path_put))]
fn put_path(
    out: &mut Vec<u8>,
    class: &[u8],
    x: Pixels,
    y: Pixels,
    moves: &[u8],
) -> Result<(), AllocError>
    ensures { OnOk result (out.new.items
        ≡ out.old.items ++ spec.path class.now (spec.point x y ++ moves.now)) }
{
    open_path(out, class, x, y)?;
    close_path(out, moves)?;
    Ok(())
}

#[tactic(auto, using(std::proofs::Common::append_assoc))]
fn moves_of_line(alloc: Global, dx: Pixels, dy: Pixels) -> Result<Vec<u8>, AllocError>
    ensures { IfOk result (λ v. v.items
        ≡ codes "h" ++ (decimal dx ++ (codes "v" ++ decimal dy))) }
{
    let mut moves = Vec::from_slice(alloc, b"h")?;
    put_number(&mut moves, dx)?;
    put(&mut moves, b"v")?;
    put_number(&mut moves, dy)?;
    Ok(moves)
}

#[tactic(auto, unfolding(svg_texts::specs::Shapes::line))]
pub fn put_line(
    alloc: Global,
    out: &mut Vec<u8>,
    class: &[u8],
    x: Pixels,
    y: Pixels,
    dx: Pixels,
    dy: Pixels,
) -> Result<(), AllocError>
    ensures { OnOk result (out.new.items ≡ out.old.items ++ spec.line class.now x y dx dy) }
{
    let moves = moves_of_line(alloc, dx, dy)?;
    put_path(out, class, x, y, &moves)
}

#[tactic(auto, unfolding(svg_texts::specs::Shapes::release))]
pub fn put_release(out: &mut Vec<u8>, x: Pixels, y: Pixels) -> Result<(), AllocError>
    ensures { OnOk result (out.new.items ≡ out.old.items ++ spec.release x y) }
{
    put_path(out, b"r", x, y, b"v-34l-3 6m3-6l3 6")
}

#[tactic(auto, unfolding(svg_texts::specs::Shapes::deadline))]
pub fn put_deadline(out: &mut Vec<u8>, class: &[u8], x: Pixels, y: Pixels) -> Result<(), AllocError>
    ensures { OnOk result (out.new.items ≡ out.old.items ++ spec.deadline class.now x y) }
{
    put_path(out, class, x, y.saturating_sub(34), b"v34l-3-6m3 6l3-6")
}

#[tactic(auto, unfolding(svg_texts::specs::Shapes::end))]
pub fn put_end(out: &mut Vec<u8>, x: Pixels, y: Pixels) -> Result<(), AllocError>
    ensures { OnOk result (out.new.items ≡ out.old.items ++ spec.end x y) }
{
    put_path(out, b"c", x, y, b"v-25m-5 0h10")
}
