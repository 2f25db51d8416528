//! Counting costs nothing and changes no answer.
ghost use Rattle.std.specs.Prelude.{◌≡◌, ◌+◌, ◌<◌, ◌≤◌};

use super::*;
use std::marker::Brand;

fn last_of<L: Ledger>(bytes: &[u8], steps: &mut Steps<L>) -> u8
    ensures { steps.new ≤ steps.old + 1 }
{
    match bytes {
        [.., last] => {
            steps.tick();
            *last
        }
        _ => 0,
    }
}

fn last_counted<L: Ledger>(bytes: &[u8], blank: Blank) -> u8
    requires name { blank.name ≡ L.name }
    requires parts { blank.parts ≡ L.parts }
    requires some { 0 < L.parts }
{
    let mut steps = Steps::<L>::new(blank);
    last_of(bytes, &mut steps)
}

#[test]
fn counts_without_bytes(rt: HostRuntime) {
    assert_eq!(rt; last_counted::<Brand>(b"TeX", Blank::new(1)), b'X');
    assert_eq!(rt; last_counted::<Brand>(b"", Blank::new(1)), 0);
    assert_eq!(rt; size_of::<Steps<Brand>>(), 0);
}
