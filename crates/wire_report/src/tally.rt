//! Groups of things that have the same label: how many they are, and where the first of them stands.

ghost use Rattle.std.specs.Prelude.{◌≡◌, ◌+◌, ◌<◌, ◌^◌, [], suc, length, take, IfOk, OnOk};
ghost use Rattle.wire_report.specs.Groups.{AreGroups, group_cmp as the_order};
ghost use Rattle.wire_report.specs.Tally.{IsLabelTally};

use indexmap::IndexSet;
use std::alloc::{AllocError, Global};
use std::cmp::Ordering;
use std::hash::Hash;

/// A group of a list: the place of the first that has its label, from 0, and how many have it.
#[derive(Clone, Copy)]
pub struct Group {
    pub first: usize,
    pub count: usize,
}

// The labels that were seen, each once, and the group of each.
#[derive(Drop)]
pub(crate) struct Tally<K: Copy + Eq + Hash + Drop> {
    pub labels: IndexSet<K>,
    pub groups: Vec<Group>,
}

impl Group {
    /// The group with one finding more.
    fn with_one_more(self) -> Group
        requires { self.count + 1 < 2 ^ 64 }
        ensures { result ≡ record { first = self.first; count = self.count + 1 } }
    {
        Group {
            first: self.first,
            count: self.count + 1,
        }
    }
}

/// The order of groups: the larger one first, and of two that are as large that which begins first.
fn group_cmp(x: &Group, y: &Group) -> Ordering
    ensures { result ≡ the_order x.now y.now }
{
    y.count.cmp(&x.count).then(x.first.cmp(&y.first))
}

impl<K: Copy + Eq + Hash + Drop> Tally<K> {
    /// A tally in which nothing is counted yet.
    fn new(alloc: Global) -> Tally<K>
        ensures { IsLabelTally K.eq [] result }
    {
        Tally {
            labels: IndexSet::new(alloc),
            groups: Vec::new(alloc),
        }
    }

    /// Counts the label at a place, after all before it.
    fn note(&mut self, labels: &[K], place: usize) -> Result<(), AllocError>
        requires within { place < length labels.now }
        requires before { IsLabelTally K.eq (take place labels.now) self.old }
        ensures { OnOk result (IsLabelTally K.eq (take (suc place) labels.now) self.new) }
    {
        let (number, is_new) = self.labels.insert_full(labels[place])?;
        if is_new {
            self.groups.push(Group {
                first: place,
                count: 1,
            })?;
        } else {
            let group = self.groups[number];
            self.groups[number] = group.with_one_more();
        }
        Ok(())
    }

    /// The groups of the labels that were seen.
    fn of(alloc: Global, labels: &[K]) -> Result<Tally<K>, AllocError>
        ensures { IfOk result (λ tally. IsLabelTally K.eq labels.now tally) }
    {
        let mut tally = Tally::new(alloc);
        for place in 0..labels.len() {
            tally.note(labels, place)?;
        }
        Ok(tally)
    }
}

/// The groups of a list of labels, one for each label that is there: the larger first, and of two that are as
/// large that which begins first. The one error is that memory ran out.
pub fn groups_of<K: Copy + Eq + Hash + Drop>(
    alloc: Global,
    labels: &[K],
) -> Result<Vec<Group>, AllocError>
    ensures { IfOk result (λ groups. AreGroups K.eq labels.now groups.items) }
{
    let tally = Tally::of(alloc, labels)?;
    let mut groups = tally.groups;
    groups.sort_unstable_by(|x, y| group_cmp(x, y));
    Ok(groups)
}
