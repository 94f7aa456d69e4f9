//! Reading a problem line field by field, from the left.

ghost use Rattle.std.specs.Prelude.{◌≡◌, ◌≤◌, true, [], map, length, take, is_ok};
ghost use Rattle.std.specs.Option.{option_map};
ghost use Rattle.cards.specs.Numbers.{bits_of};
ghost use Rattle.lines.specs.Counts.{listed};
ghost use Rattle.lines.specs.Fields.{here, next_spot};
ghost use Rattle.lines.specs.Places.{Placed};
ghost use Rattle.lines.specs.Problems.{defence, deal};
ghost use Rattle.lines.specs.Reading.{field, hand_at, first_cards, agrees, layout_at, layouts_at, end_at, tricks_at, plan_at, read_line};
ghost use Rattle.lines.specs.Spelling.{size};
ghost use Rattle.lines.specs.Told.{deal_of, on_ok};
ghost use Rattle.lines.specs.Written.{Right};

use crate::deal::{Goal, Layout, Parts, Seat, Target};
use crate::fault::{Fault, FaultKind};
use crate::fields::{Field, Fields};
use crate::problem::Problem;
use crate::spelling::{LayoutCount, Spelled};
use cards::{CardSet, Suit};

/// The next field as a T, or the fault that it is missing or not right.
fn field<T: Spelled + Drop>(fields: &mut Fields<'_>, bad: FaultKind) -> Result<T, Fault>
    ensures value { on_ok T.Spelled.told result ≡ field T.Spelled.spells bad (here fields.old) }
    ensures goes { here fields.new ≡ next_spot (here fields.old) }
{
    let place = fields.place();
    let Some(field) = fields.next() else {
        return Err(place.fault(FaultKind::Missing));
    };
    match T::read(field.text) {
        Some(value) => Ok(value),
        None => Err(place.fault(bad)),
    }
}

/// A hand as long as another, with no card of some earlier hands.
fn hand(fields: &mut Fields<'_>, like: CardSet, earlier: CardSet) -> Result<CardSet, Fault>
    ensures value { on_ok bits_of result ≡ hand_at (size (bits_of like)) (bits_of earlier) (here fields.old) }
    ensures goes { here fields.new ≡ next_spot (here fields.old) }
{
    let place = fields.place();
    let hand = field::<CardSet>(fields, FaultKind::Hand)?;
    if hand.len() != like.len() {
        return Err(place.fault(FaultKind::Length));
    }
    if !hand.intersection(earlier).is_empty() {
        return Err(place.fault(FaultKind::Repeated));
    }
    Ok(hand)
}

/// Nothing is left, or the first field that is.
fn end(fields: &mut Fields<'_>) -> Result<(), Fault>
    ensures { result ≡ end_at tt (here fields.old) }
{
    let place = fields.place();
    match fields.next() {
        None => Ok(()),
        Some(_) => Err(place.fault(FaultKind::Surplus)),
    }
}

/// The rest of a line that asks for tricks.
fn tricks(fields: &mut Fields<'_>) -> Result<Parts, Fault>
    ensures { on_ok deal result ≡ tricks_at (here fields.old) }
{
    let trump = field::<Option<Suit>>(fields, FaultKind::Value)?;
    let leader = field::<Seat>(fields, FaultKind::Value)?;
    let hand0 = field::<CardSet>(fields, FaultKind::Hand)?;
    let hand1 = hand(fields, hand0, hand0)?;
    let hand2 = hand(fields, hand0, hand0.union(hand1))?;
    let hand3 = hand(fields, hand0, hand0.union(hand1).union(hand2))?;
    end(fields)?;
    let mut layouts = [Layout::NONE; 6];
    layouts[0] = Layout { hand1, hand3 };
    Ok(Parts {
        goal: Goal::Tricks,
        trump,
        leader,
        hand0,
        hand2,
        layouts,
        count: 1,
    })
}

/// Whether a layout's cards are those of the first one, if there is one.
fn agrees(first: Option<CardSet>, cards: CardSet) -> bool
    ensures { result ≡ agrees (option_map bits_of first) (bits_of cards) }
{
    first.is_none_or(|first| cards == first)
}

/// A layout beside hands 0 and 2; its cards are those of the first layout, if there is one.
fn layout(
    fields: &mut Fields<'_>,
    hand0: CardSet,
    hand2: CardSet,
    first: Option<CardSet>,
) -> Result<Layout, Fault>
    ensures value { on_ok defence result ≡ layout_at (bits_of hand0) (bits_of hand2) (option_map bits_of first) (here fields.old) }
    ensures goes { is_ok result ≡ true → here fields.new ≡ next_spot (next_spot (here fields.old)) }
{
    let ours = hand0.union(hand2);
    let hand1 = hand(fields, hand0, ours)?;
    let place = fields.place();
    let hand3 = hand(fields, hand0, ours.union(hand1))?;
    if !agrees(first, hand1.union(hand3)) {
        return Err(place.fault(FaultKind::Cards));
    }
    Ok(Layout { hand1, hand3 })
}

/// The layouts of a line, which end it.
fn layouts(
    fields: &mut Fields<'_>,
    hand0: CardSet,
    hand2: CardSet,
    count: LayoutCount,
) -> Result<[Layout; 6], Fault>
    ensures { on_ok (λ a. map defence (take (listed count) a)) result ≡ layouts_at (listed count) (bits_of hand0) (bits_of hand2) [] (here fields.old) }
{
    let mut layouts = [Layout::NONE; 6];
    let mut first = None;
    for place in &mut layouts[..count.get()] {
        let Layout { hand1, hand3 } = layout(fields, hand0, hand2, first)?;
        *place = Layout { hand1, hand3 };
        first = first.or(Some(hand1.union(hand3)));
    }
    end(fields)?;
    Ok(layouts)
}

/// The rest of a line that asks for plans.
fn plan(fields: &mut Fields<'_>) -> Result<Parts, Fault>
    ensures { on_ok deal result ≡ plan_at (here fields.old) }
{
    let trump = field::<Option<Suit>>(fields, FaultKind::Value)?;
    let leader = field::<Seat>(fields, FaultKind::Value)?;
    let target = field::<Target>(fields, FaultKind::Value)?;
    let hand0 = field::<CardSet>(fields, FaultKind::Hand)?;
    let hand2 = hand(fields, hand0, hand0)?;
    let count = field::<LayoutCount>(fields, FaultKind::Value)?;
    let layouts = layouts(fields, hand0, hand2, count)?;
    Ok(Parts {
        goal: Goal::Plan(target),
        trump,
        leader,
        hand0,
        hand2,
        layouts,
        count: count.get(),
    })
}

/// The parts of the problem that a line says, or its first fault from the left.
fn parts_of(line: &[u8]) -> Result<Parts, Fault>
    ensures { on_ok deal result ≡ read_line line.now }
{
    let mut fields = Fields::new(line);
    let place = fields.place();
    match fields.next() {
        Some(Field { text: [b'D'], .. }) => tricks(&mut fields),
        Some(Field { text: [b'P'], .. }) => plan(&mut fields),
        _ => Err(place.fault(FaultKind::Kind)),
    }
}

/// The problem that a line says, or its first fault from the left. A line is accepted exactly when it is the written
/// form of a valid deal, and that deal is then the answer; a fault is at the byte where its field begins.
pub fn read(line: &[u8]) -> Result<Problem, Fault>
    ensures answer { on_ok deal_of result ≡ read_line line.now }
    ensures law { Right line.now (on_ok deal_of result) }
    ensures places { Placed line.now (on_ok deal_of result) }
{
    let parts = parts_of(line)?;
    Ok(Problem::new(parts))
}
