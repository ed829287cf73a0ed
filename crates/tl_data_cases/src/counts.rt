// A count of steps, over a walk of bytes.
ghost use Rattle.std.specs.Prelude.{◌≡◌, ◌+◌, ◌<◌, length};

use crate::stop::Stop;
use std::marker::Brand;
use std::mem::size_of;
use std::sync::ledger::{Blank, Ledger};
use tl_terms::Steps;

/// One step for each byte.
fn walk<L: Ledger>(bytes: &[u8], steps: &mut Steps<L>)
    ensures { steps.new ≡ steps.old + length bytes.now }
{
    for _byte in bytes {
        steps.tick();
    }
}

/// A walk that is counted from its start, and its count.
fn walk_from_start<L: Ledger>(bytes: &[u8], blank: Blank) -> Steps<L>
    requires name { blank.name ≡ L.name }
    requires parts { blank.parts ≡ L.parts }
    requires some { 0 < blank.parts }
    ensures { result ≡ length bytes.now }
{
    let mut steps = Steps::new(blank);
    walk(bytes, &mut steps);
    steps
}

fn walk_uncounted<L: Ledger>(bytes: &[u8], blank: Blank)
    requires name { blank.name ≡ L.name }
    requires parts { blank.parts ≡ L.parts }
    requires some { 0 < blank.parts }
{
    let _steps = walk_from_start::<L>(bytes, blank);
}

#[test]
fn steps_are_counted_with_no_bytes(rt: HostRuntime) -> Result<(), Stop> {
    walk_uncounted::<Brand>(b"abc", Blank::new(1));
    assert_eq!(rt; size_of::<Steps<Brand>>(), 0);
    Ok(())
}
