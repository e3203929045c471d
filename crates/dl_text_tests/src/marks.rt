//! Marks that are set, cleared, frozen and shared.

ghost use Rattle.std.specs.Prelude.{◌≡◌, ◌<◌};

use dl_marks::{Family, Marks, Memory, Steps, Tag};
use std::alloc::Global;
use std::marker::Brand;
use std::sync::ledger::{Blank, Ledger};
use std::test::Fail;

const PLUS: Tag = Tag {
    plus: true,
    family: Family::Propagating,
};

const MINUS: Tag = Tag {
    plus: false,
    family: Family::Propagating,
};

/// Two numbers, of which the second is proved in one family.
fn proved_once<L: Ledger>(alloc: Global, blank: Blank) -> Result<Marks, Memory>
    requires name { blank.name ≡ L.name }
    requires parts { blank.parts ≡ L.parts }
    requires some { 0 < blank.parts }
{
    let mut steps = Steps::<L>::make(blank);
    let mut marks = Marks::make(alloc);
    marks.grown(2, &mut steps)?;
    marks.own(1)?;
    marks.set(PLUS, 1, &mut steps);
    marks.clear(MINUS, 1, &mut steps);
    marks.freeze()?;
    let _ = sent(steps);
    marks.share()
}

/// 2,000 numbers, of which the last is proved and frozen, and those marks as they go on: 300 more numbers, and number 300 is proved.
fn shared_and_edited<L: Ledger>(alloc: Global, blank: Blank) -> Result<(Marks, Marks), Memory>
    requires name { blank.name ≡ L.name }
    requires parts { blank.parts ≡ L.parts }
    requires some { 0 < blank.parts }
{
    let mut steps = Steps::<L>::make(blank);
    let mut marks = Marks::make(alloc);
    marks.grown(2000, &mut steps)?;
    marks.own(1999)?;
    marks.set(PLUS, 1999, &mut steps);
    marks.freeze()?;
    let shared = marks.share()?;
    marks.grown(2300, &mut steps)?;
    marks.own(300)?;
    marks.set(PLUS, 300, &mut steps);
    Ok((shared, marks))
}

/// Marks may be seen by many threads.
fn shared<T: Send + Sync>(value: T) -> T {
    value
}

/// A counter may go to another thread.
fn sent<T: Send>(value: T) -> T {
    value
}

#[test]
fn one_number_is_proved(rt: HostRuntime) -> Result<(), Fail> {
    let marks = shared(proved_once::<Brand>(rt.alloc(), Blank::new(1))?);
    assert!(rt; marks.len() == 2);
    for number in 0..marks.len() {
        assert!(rt; marks.get(PLUS, number) == (number == 1));
        assert!(rt; marks.get(MINUS, number) == (number != 1));
    }
    Ok(())
}

#[test]
fn shared_marks_stay_while_one_number_is_edited(rt: HostRuntime) -> Result<(), Fail> {
    let (shared, edited) = shared_and_edited::<Brand>(rt.alloc(), Blank::new(1))?;
    assert!(rt; shared.len() == 2000);
    for number in 0..shared.len() {
        assert!(rt; shared.get(PLUS, number) == (number == 1999));
        assert!(rt; shared.get(MINUS, number));
    }
    assert!(rt; edited.len() == 2300);
    for number in 0..edited.len() {
        assert!(rt; edited.get(PLUS, number) == (number == 300 || number == 1999));
        assert!(rt; edited.get(MINUS, number));
    }
    Ok(())
}
