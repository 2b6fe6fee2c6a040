//! The mentions of registers, or of results, by rounds of 64.

ghost use Rattle.std.specs.Prelude.{◌≡◌, ℕ, ◌+◌, ◌/◌, ◌<◌, OnOk, IfOk, length, nat_eq};
ghost use Rattle.profile_check.specs.Rounds.{slot_of, HaveSlots, place_in, use_of as use_of_mention, AreRounds};

use crate::mentions::{How, Mention};
use crate::names::Places;
use crate::rows::{empty_rows, push_in_row};
use qq_base::NoMemory;
use std::alloc::Global;
use std::collections::HashMap;

/// A slot for each register, or result, that is assigned, from 0 on in the order of the text.
#[derive(Drop)]
pub(crate) struct Slots {
    known: HashMap<u32, usize>,
    count: usize,
}

impl Slots {
    /// The slot of a number. Those that are never assigned share one behind all others.
    fn slot(&self, number: u32) -> usize
        ensures { result ≡ slot_of self.now number }
    {
        match self.known.get(&number) {
            Some(slot) => *slot,
            None => self.count,
        }
    }
}

/// The slots of what some mentions assign.
pub(crate) fn make_slots(alloc: Global, mentions: &[Mention]) -> Result<Slots, NoMemory>
    ensures { IfOk result (λ slots. HaveSlots (slot_of slots) slots.count mentions.now) }
{
    let mut known = HashMap::new(alloc);
    let mut count = 0;
    for mention in mentions {
        if let How::Assigned = mention.how {
            if !known.contains_key(&mention.number) {
                known.insert(mention.number, count)?;
                count += 1;
            }
        }
    }
    Ok(Slots { known, count })
}

/// A mention, with the block whose bits it is about and the slot of its number.
#[derive(Clone, Copy)]
pub(crate) struct Use {
    pub mention: Mention,
    pub block: usize,
    pub slot: usize,
}

/// A mention in its round; a block of a name that is not there counts as the one behind all others.
fn use_of(slots: &Slots, places: &Places, end: usize, mention: Mention) -> Use
    ensures { result ≡ use_of_mention (slot_of slots.now) (place_in places.now end) mention }
{
    let block = match mention.how {
        How::Assigned | How::Read => mention.at.block,
        How::Entry(name) => match places.get(&name) {
            Some(place) => *place,
            None => end,
        },
    };
    Use {
        mention,
        block,
        slot: slots.slot(mention.number),
    }
}

/// The mentions of each round, in order.
pub(crate) fn by_rounds(
    alloc: Global,
    slots: &Slots,
    places: &Places,
    end: usize,
    mentions: &[Mention],
) -> Result<Vec<Vec<Use>>, NoMemory>
    ensures long { IfOk result (λ rounds. length rounds.items ≡ slots.now.count / 64 + 1) }
    ensures rounds { IfOk result (λ rounds. AreRounds rounds.items (slot_of slots.now) (place_in places.now end) mentions.now) }
{
    let mut rounds = empty_rows(alloc, slots.count / 64 + 1)?;
    for mention in mentions {
        let one = use_of(slots, places, end, *mention);
        push_in_row(&mut rounds, one.slot / 64, one)?;
    }
    Ok(rounds)
}
