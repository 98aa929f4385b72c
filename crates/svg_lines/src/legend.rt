//! The legend: fifteen drawings, each with its words, three in a row.
ghost use Rattle.std.specs.Prelude.{◌≡◌, ◌<◌, ◌^◌, ◌++◌, OnOk};
ghost use Rattle.svg_texts.specs.Legend as spec;

use crate::bars::{Area, put_bar};
use crate::put::Pixels;
use crate::shapes::{put_deadline, put_end, put_rect, put_release, put_words};
use rt_base::NoMemory;
use std::alloc::{AllocError, Global};

#[tactic(auto, unfolding(svg_texts::specs::Legend::says))]
fn put_says(out: &mut Vec<u8>, x: Pixels, z: Pixels, words: &[u8]) -> Result<(), AllocError>
    requires { x < 2 ^ 90 }
    ensures { OnOk result (out.new.items ≡ out.old.items ++ spec.says x z words.now) }
{
    put_words(out, b"t", x + 42, z.saturating_sub(8), words)
}

fn put_box(out: &mut Vec<u8>, class: &[u8], x: Pixels, z: Pixels) -> Result<(), AllocError>
    ensures { OnOk result (out.new.items ≡ out.old.items ++ spec.box class.now x z) }
{
    put_rect(out, class, x, z.saturating_sub(24), 30, 22)
}

fn put_over(
    out: &mut Vec<u8>,
    class: &[u8],
    x: Pixels,
    z: Pixels,
    up: Pixels,
    h: Pixels,
) -> Result<(), AllocError>
    ensures { OnOk result (out.new.items ≡ out.old.items ++ spec.over class.now x z up h) }
{
    put_rect(out, class, x, z.saturating_sub(up), 30, h)
}

#[tactic(auto, using(std::proofs::Common::append_assoc))]
fn put_deadline_item(
    out: &mut Vec<u8>,
    class: &[u8],
    x: Pixels,
    z: Pixels,
    words: &[u8],
) -> Result<(), AllocError>
    requires { x < 2 ^ 90 }
    ensures { OnOk result (out.new.items
        ≡ out.old.items ++ spec.deadline_item class.now x z words.now) }
{
    put_deadline(out, class, x + 15, z)?;
    put_says(out, x, z, words)
}

#[tactic(auto, using(std::proofs::Common::append_assoc))]
fn put_box_item(
    out: &mut Vec<u8>,
    class: &[u8],
    x: Pixels,
    z: Pixels,
    words: &[u8],
) -> Result<(), AllocError>
    requires { x < 2 ^ 90 }
    ensures { OnOk result (out.new.items ≡ out.old.items ++ spec.box_item class.now x z words.now) }
{
    put_box(out, class, x, z)?;
    put_says(out, x, z, words)
}

/// A bar with a strip of a class, so far above its foot and so high.
#[tactic(auto, using(std::proofs::Common::append_assoc), unfolding(svg_texts::specs::Legend::strip_item))]
fn put_strip_item(
    out: &mut Vec<u8>,
    class: &[u8],
    x: Pixels,
    z: Pixels,
    up: Pixels,
    h: Pixels,
    words: &[u8],
) -> Result<(), AllocError>
    requires { x < 2 ^ 90 }
    ensures { OnOk result (out.new.items
        ≡ out.old.items ++ spec.strip_item class.now x z up h words.now) }
{
    put_box(out, b"c0", x, z)?;
    put_over(out, class, x, z, up, h)?;
    put_says(out, x, z, words)
}

#[tactic(auto, using(std::proofs::Common::append_assoc), unfolding(svg_texts::specs::Legend::mark_items))]
fn put_mark_items(out: &mut Vec<u8>, z: Pixels) -> Result<(), AllocError>
    ensures { OnOk result (out.new.items ≡ out.old.items ++ spec.mark_items z) }
{
    put_release(out, 35, z)?;
    put_says(out, 20, z, b"release, at the start of its tick")?;
    put_deadline_item(out, b"d", 350, z, b"deadline, at the end of its tick")?;
    put_deadline_item(out, b"M", 680, z, b"deadline missed")?;
    Ok(())
}

/// A bar on processor 0.
fn put_sample(
    alloc: Global,
    out: &mut Vec<u8>,
    full: bool,
    x: Pixels,
    z: Pixels,
) -> Result<(), NoMemory>
    requires x { x < 2 ^ 90 }
    requires z { z < 2 ^ 90 }
    ensures { OnOk result (out.new.items ≡ out.old.items ++ spec.sample full x z) }
{
    let a = Area {
        x,
        y: z.saturating_sub(24),
        w: 30,
        h: 22,
    };
    put_bar(alloc, out, full, 1, a, b"0")
}

#[tactic(auto, using(std::proofs::Common::append_assoc), unfolding(svg_texts::specs::Legend::bar_items))]
fn put_bar_items(alloc: Global, out: &mut Vec<u8>, z: Pixels) -> Result<(), NoMemory>
    requires { z < 2 ^ 90 }
    ensures { OnOk result (out.new.items ≡ out.old.items ++ spec.bar_items z) }
{
    put_end(out, 35, z)?;
    put_says(out, 20, z, b"end of a job")?;
    put_sample(alloc, out, true, 350, z)?;
    put_says(out, 350, z, b"units of work, on processor 0")?;
    put_sample(alloc, out, false, 680, z)?;
    put_says(out, 680, z, b"runs on 0, and does no unit")?;
    Ok(())
}

#[tactic(auto, using(std::proofs::Common::append_assoc), unfolding(svg_texts::specs::Legend::still_items))]
fn put_still_items(out: &mut Vec<u8>, z: Pixels) -> Result<(), AllocError>
    ensures { OnOk result (out.new.items ≡ out.old.items ++ spec.still_items z) }
{
    put_over(out, b"y", 20, z, 14, 3)?;
    put_says(out, 20, z, b"there, not running")?;
    put_over(out, b"z", 350, z, 14, 3)?;
    put_says(out, 350, z, b"sleeps")?;
    put_box_item(out, b"w", 680, z, b"waits for a semaphore")
}

#[tactic(auto, using(std::proofs::Common::append_assoc), unfolding(svg_texts::specs::Legend::section_items))]
fn put_section_items(out: &mut Vec<u8>, z: Pixels) -> Result<(), AllocError>
    ensures { OnOk result (out.new.items ≡ out.old.items ++ spec.section_items z) }
{
    put_box_item(out, b"B", 20, z, b"waits, priority-blocked")?;
    put_strip_item(out, b"s", 350, z, 8, 6, b"holds the semaphore below")?;
    put_strip_item(out, b"p", 680, z, 24, 3, b"non-preemptive")?;
    Ok(())
}

#[tactic(auto, using(std::proofs::Common::append_assoc), unfolding(svg_texts::specs::Legend::link_item))]
fn put_link_item(out: &mut Vec<u8>, z: Pixels) -> Result<(), AllocError>
    ensures { OnOk result (out.new.items ≡ out.old.items ++ spec.link_item z) }
{
    put_over(out, b"c0", 350, z, 24, 18)?;
    put_over(out, b"c1", 350, z, 4, 4)?;
    put_says(out, 350, z, b"what a processor runs; its link")
}

#[tactic(auto, using(std::proofs::Common::append_assoc), unfolding(svg_texts::specs::Legend::budget_item))]
fn put_budget_item(out: &mut Vec<u8>, z: Pixels) -> Result<(), AllocError>
    ensures { OnOk result (out.new.items ≡ out.old.items ++ spec.budget_item z) }
{
    put_over(out, b"c0", 680, z, 10, 10)?;
    put_words(out, b"m", 695, z.saturating_sub(2), b"1")?;
    put_says(out, 680, z, b"budget left of a reservation")
}

#[tactic(auto, using(std::proofs::Common::append_assoc), unfolding(svg_texts::specs::Legend::strip_items))]
fn put_strip_items(out: &mut Vec<u8>, z: Pixels) -> Result<(), AllocError>
    ensures { OnOk result (out.new.items ≡ out.old.items ++ spec.strip_items z) }
{
    put_strip_item(out, b"k", 20, z, 28, 4, b"key raised: inherited or boosted")?;
    put_link_item(out, z)?;
    put_budget_item(out, z)?;
    Ok(())
}

/// The legend, below y.
#[tactic(auto, using(std::proofs::Common::append_assoc), unfolding(svg_texts::specs::Legend::legend))]
pub fn put_legend(alloc: Global, out: &mut Vec<u8>, y: Pixels) -> Result<(), NoMemory>
    requires { y < 2 ^ 89 }
    ensures { OnOk result (out.new.items ≡ out.old.items ++ spec.legend y) }
{
    put_mark_items(out, y + 44)?;
    put_bar_items(alloc, out, y + 88)?;
    put_still_items(out, y + 132)?;
    put_section_items(out, y + 176)?;
    put_strip_items(out, y + 220)?;
    Ok(())
}
