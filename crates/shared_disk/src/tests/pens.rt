ghost use Rattle.std.specs.Prelude.{◌≡◌, ◌∷◌, length};
ghost use Rattle.shared_disk.specs.declared.log_rule.Item.TheVariants.{LineOf};

use super::bench::Ask::{Read, Wait};
use super::bench::{desk_of, take};
use crate::Plate;
use crate::pens::{Pen, make_pen};
use history::Entry;
use std::marker::Brand;
use std::test::Fail;
use std::thread;

/// A note is renewed after each item, and another is taken in.
#[test]
fn notes_see_the_log(rt: HostRuntime) -> Result<(), Fail> {
    let mut pen = make_pen::<Brand, u32>(rt.alloc(), 0, &0)?;
    let mut note = pen.note();
    pen.enter(&Entry::Reset { tag: 1 });
    pen.renew(&mut note);
    let other = pen.note();
    pen.enter_line(1);
    pen.renew(&mut note);
    pen.meet(other);
    assert_eq!(rt; pen.items(), 2);
    Ok(())
}

// The pen after a line of the first client.
fn after_line(mut pen: Pen) -> Pen
    requires { length pen.log ≡ 0 }
    ensures { result ≡ record pen { log = LineOf 1 ∷ pen.log } }
{
    pen.enter_line(1);
    pen
}

/// The pen and a note come back from threads of their own.
#[test]
fn crosses_threads(rt: HostRuntime) -> Result<(), Fail> {
    let mut pen = make_pen::<Brand, u32>(rt.alloc(), 0, &0)?;
    let note = pen.note();
    let (mut pen, mut note) = thread::join(&rt, move || after_line(pen), move || note);
    pen.renew(&mut note);
    assert_eq!(rt; pen.items(), 1);
    Ok(())
}

/// The plate of a desk with two lines done.
#[test]
fn counts_lines_done(rt: HostRuntime) -> Result<(), Fail> {
    let mut desk = desk_of(rt.alloc(), &[&[Read(0, 1), Wait], &[Wait]])?;
    take(&mut desk, 1);
    take(&mut desk, 2);
    assert_eq!(rt; desk.done_lines(), 2);
    Plate::make(rt.alloc(), &desk)?;
    Ok(())
}
