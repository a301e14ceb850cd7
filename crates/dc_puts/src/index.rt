//! The records of class IN of a message, sorted.
ghost use Rattle.std.specs.Prelude.{◌≡◌, [], length};
ghost use Rattle.std.specs.List.Sorted.{IsPermutation, IsSortedBy};
ghost use Rattle.dc_puts.specs.Order.{comes_before, places_from};

use crate::order::compare;
use crate::record::row;
use arrayvec::ArrayVec;
use dc_packet::Message;
use dc_types::class;

/// The numbers of records: as many as a message of 65535 bytes can have.
pub(crate) type Index = ArrayVec<u16, 5956>;

/// The numbers of the records of class IN, as they stand in the message.
#[tactic(auto, using(crate::proofs::Collecting::collecting))]
fn collect(message: &Message<'_>, index: &mut Index)
    ensures { index.new.items ≡ places_from 0 message.now.records }
{
    index.clear();
    for i in 0..message.count() {
        if row(message, i).class == class::IN {
            index.push(i as u16);
        }
    }
}

/// Sorts numbers of records.
fn sort(message: &Message<'_>, index: &mut [u16])
    ensures permutation { IsPermutation index.old index.new }
    ensures sorted { IsSortedBy (comes_before message.now) index.new }
    ensures len { length index.new ≡ length index.old }
{
    index.sort_unstable_by(|a, b| compare(message, *a, *b));
}

#[tactic(auto, using(crate::proofs::Past::refilled))]
/// The numbers of the records of class IN, by type, owner and number.
pub(crate) fn arrange(message: &Message<'_>, index: &mut Index)
    ensures permutation { IsPermutation (places_from 0 message.now.records) index.new.items }
    ensures sorted { IsSortedBy (comes_before message.now) index.new.items }
{
    collect(message, index);
    sort(message, index.as_mut_slice());
}
