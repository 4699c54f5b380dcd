// Names in order, with their numbers by an ordered map.
ghost use Rattle.std.specs.Prelude.{◌≡◌, ℕ, List, [], ◌∷◌, ◌++◌, length, map, IfOk, OnOk, if◌then◌else◌};
ghost use Rattle.std.specs.BTreeMap as tree;
ghost use Rattle.std.specs.Cmp.Lexicographic.{slice_cmp};
ghost use Rattle.std.specs.Option.{option_or};
ghost use Rattle.std.specs.Ordering.{nat_cmp};
ghost use Rattle.std.specs.Str.{bytes_eq};
ghost use Rattle.week_book.specs.Names.{is_among, number_of};

use minute_line::{Many, Memory, Name};
use std::alloc::{AllocError, Global};
use std::collections::BTreeMap;
use std::marker::Model;

/// Names in order, with a map to their numbers. Contracts see it as the names.
#[derive(Drop)]
pub struct NameIndex<'a> {
    names: Vec<&'a [u8]>,
    numbers: BTreeMap<&'a [u8], usize>,
    ghost numbered: { (q : List ℕ) → tree.get_by (λ k. slice_cmp nat_cmp q k.now) numbers ≡ number_of (map (λ n. n.now) names.items) q },
}

impl<'a> Model for NameIndex<'a> {
    ghost Value = { List (List ℕ) };

    ghost view = { λ name_index. map (λ n. n.now) name_index.names.items };
}

/// Gives a name that number, unless it has one.
fn enter<'a>(
    numbers: &mut BTreeMap<&'a [u8], usize>,
    name: &'a [u8],
    number: usize,
) -> Result<(), AllocError>
    ensures { OnOk result ((q : List ℕ) →
        tree.get_by (λ k. slice_cmp nat_cmp q k.now) numbers.new
        ≡ option_or (tree.get_by (λ k. slice_cmp nat_cmp q k.now) numbers.old) (if bytes_eq q name.now then Some number else None)) }
{
    if numbers.contains_key(name) {
        return Ok(());
    }
    numbers.insert(name, number)?;
    Ok(())
}

impl<'a> NameIndex<'a> {
    /// No names, which take no memory.
    pub fn new(alloc: Global) -> NameIndex<'a>
        ensures { result ≡ [] }
    {
        NameIndex {
            names: Vec::new(alloc),
            numbers: BTreeMap::new(alloc),
        }
    }

    /// The names with one more at the end. A name that is there keeps its number.
    pub fn with(self, name: &'a [u8]) -> Result<NameIndex<'a>, AllocError>
        ensures { IfOk result (λ name_index. name_index ≡ self.entry ++ name.now ∷ []) }
    {
        let NameIndex {
            mut names,
            mut numbers,
        } = self;
        let number = names.len();
        names.push(name)?;
        enter(&mut numbers, name, number)?;
        Ok(NameIndex { names, numbers })
    }

    /// How many names there are.
    pub fn len(&self) -> usize
        ensures { result ≡ length self.now }
    {
        self.names.len()
    }

    /// The number of a name, from 0. None where it is none of the names.
    pub fn number(&self, name: &[u8]) -> Option<usize>
        ensures { result ≡ number_of self.now name.now }
    {
        self.numbers.get(name).copied()
    }

    /// Whether it is one of the names.
    pub fn has(&self, name: &[u8]) -> bool
        ensures { result ≡ is_among self.now name.now }
    {
        self.number(name).is_some()
    }

    /// A list of the names.
    pub fn names(&self, alloc: Global) -> Result<Many<Name>, Memory>
        ensures { IfOk result (λ names. names ≡ self.now) }
    {
        let mut names = Many::new(alloc);
        for name in &self.names {
            names.push(Name::from_slice(alloc, name)?)?;
        }
        Ok(names)
    }
}
