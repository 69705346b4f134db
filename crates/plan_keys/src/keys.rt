//! The keys of a table, read one after another.

ghost use Rattle.std.specs.Prelude.{◌≡◌, ◌≤◌, IsTrue, IsSome, IfSome, Some, None, option_map, map, length, string_bytes, true};
ghost use Rattle.std.specs.BTreeMap.{IsOrdered};
ghost use Rattle.std.specs.Result.{result_unwrap_or, result_err};
ghost use Rattle.std.specs.String.{string_cmp};
ghost use Rattle.toml.specs.Data.{get_member};
ghost use Rattle.toml.specs.View.{view, table_view, items_view};
ghost use Rattle.plan_keys.specs.Keys as rule;
ghost use Rattle.plan_keys.specs.Keys.{IsAscii, all_tables, table_of, members_of, asked_of, fresh, noted, named, wanted_text, Says};
ghost use Rattle.plan_keys.specs.Faults.{told_at, unknown_at, is_known, least_unknown, AnswersBy};

use crate::fault::{Key, PlanFault, Wanted};
use crate::forms::{self, Short, Wrong};
use arrayvec::ArrayVec;
use std::alloc::Global;
use toml::{Table, Value};

/// The name of a key.
type Name = &'static str;

/// A key that is wrong, and what it has to say.
#[derive(Clone, Copy)]
pub struct Found {
    pub name: &'static str,
    pub wrong: Wrong,
    pub wanted: Wanted,
}

/// The keys of a table, or of none, which has only defaults. Each key is asked for once, in the order in which they are
/// judged, and up to 32 of them are known afterwards. What a wrong key says is any value within its rule; the first
/// wrong key is kept.
#[derive(Drop)]
pub struct Keys<'a> {
    pub table: Option<&'a Table>,
    pub names: ArrayVec<&'static str, 32>,
    pub found: Option<Found>,
}

impl<'a> Keys<'a> {
    /// The keys of a table, or of none.
    pub fn of(table: Option<&'a Table>) -> Keys<'a>
        ensures table { result.table ≡ table.entry }
        ensures fresh { asked_of result ≡ fresh (members_of table.entry) }
    {
        Keys {
            table,
            names: ArrayVec::new(),
            found: None,
        }
    }

    /// The value at a key.
    #[tactic(auto, using(toml::proofs::Views::table_get))]
    pub fn find(&self, name: &str) -> Option<&'a Value>
        ensures { option_map (λ v. view v.now) result ≡ get_member name.now (members_of self.now.table) }
    {
        self.table?.get(name)
    }

    /// Keeps a name that was asked for.
    fn name(&mut self, name: Name)
        ensures { asked_of self.new ≡ named name.now (asked_of self.old) }
    {
        if self.names.len() < 32 {
            self.names.push(name);
        }
    }

    /// Keeps what is wrong with a key, if anything is, where nothing was wrong before.
    fn note(&mut self, name: Name, wanted: Wanted, wrong: Option<Wrong>)
        ensures { asked_of self.new ≡ noted name.now (wanted_text wanted) wrong (asked_of self.old) }
    {
        if let Some(wrong) = wrong
            && self.found.is_none()
        {
            self.found = Some(Found {
                name,
                wrong,
                wanted,
            });
        }
    }

    /// What a key was judged to say; what is wrong is kept, where nothing was wrong before.
    pub fn keep<T: Drop>(
        &mut self,
        name: Name,
        wanted: Wanted,
        judged: Result<T, Wrong>,
        otherwise: T,
    ) -> T
        ensures value { result ≡ result_unwrap_or judged otherwise }
        ensures asked { asked_of self.new ≡ noted name.now (wanted_text wanted) (result_err judged) (named name.now (asked_of self.old)) }
    {
        self.name(name);
        match judged {
            Ok(value) => value,
            Err(wrong) => {
                self.note(name, wanted, Some(wrong));
                otherwise
            }
        }
    }

    /// A number from the least to the greatest, or the default; without one it has to be there.
    pub fn number(&mut self, name: Name, least: u64, most: u64, default: Option<u64>) -> u64
        requires bounds { least ≤ most }
        requires default { IfSome default (λ n. (least ≤ n) × (n ≤ most)) }
        ensures said { Says (rule.number name.now least most default) self.old self.new result }
        ensures bounds { (least ≤ result) × (result ≤ most) }
    {
        let judged = match self.find(name) {
            Some(value) => forms::number_of(least, most, value),
            None => default.ok_or(Wrong::Missing),
        };
        self.keep(name, Wanted::Between(least, most, ""), judged, least)
    }

    /// A number from the least to the greatest, if it is there, or the default, if there is one; where it is needed, and
    /// there is none, it has to be there.
    pub fn perhaps(
        &mut self,
        name: Name,
        least: u64,
        most: u64,
        default: Option<u64>,
        needed: bool,
    ) -> Option<u64>
        requires bounds { IsTrue needed → least ≤ most }
        requires default { IfSome default (λ n. (least ≤ n) × (n ≤ most)) }
        ensures said { Says (rule.perhaps name.now least most default needed) self.old self.new result }
        ensures bounds { IfSome result (λ n. (least ≤ n) × (n ≤ most)) }
        ensures there { IsTrue needed → IsSome result }
    {
        let judged = match self.find(name) {
            Some(value) => forms::number_of(least, most, value).map(Some),
            None if needed => default.map(Some).ok_or(Wrong::Missing),
            None => Ok(default),
        };
        let otherwise = if needed { Some(least) } else { default };
        self.keep(name, Wanted::Between(least, most, ""), judged, otherwise)
    }

    /// A truth value, or the default; without one it has to be there.
    pub fn truth(&mut self, name: Name, default: Option<bool>) -> bool
        ensures { Says (rule.truth name.now default) self.old self.new result }
    {
        let judged = match self.find(name) {
            Some(value) => value.as_bool().ok_or(Wrong::BadValue),
            None => default.ok_or(Wrong::Missing),
        };
        self.keep(name, Wanted::Said("true or false"), judged, false)
    }

    /// The meaning of one of these words, or the default; without one it has to be there.
    pub fn word<T: Copy>(
        &mut self,
        name: Name,
        words: &'static [&'static str],
        meanings: &[T],
        default: Option<T>,
        otherwise: T,
    ) -> T
        ensures { Says (rule.word name.now (map (λ w. w.now) words.now) meanings.now default otherwise) self.old self.new result }
    {
        let judged = match self.find(name) {
            Some(value) => forms::word_of(words, meanings, value),
            None => default.ok_or(Wrong::Missing),
        };
        self.keep(name, Wanted::Words("one of ", words, ""), judged, otherwise)
    }

    /// From so many to so many ASCII characters, or the default.
    pub fn ascii(&mut self, name: Name, least: usize, most: usize, default: &'static str) -> &'a str
        requires default { IsAscii least most default.now }
        ensures said { Says (rule.ascii name.now least most default.now) self.old self.new result.now }
        ensures fits { IsAscii least most result.now }
    {
        let otherwise: &'a str = default;
        let judged = match self.find(name) {
            Some(value) => forms::ascii_of(least, most, value),
            None => Ok(otherwise),
        };
        let wanted = Wanted::Between(least as u64, most as u64, " ASCII characters");
        self.keep(name, wanted, judged, otherwise)
    }

    /// From so many to so many bytes in hexadecimal of either case, at most 32, or the default.
    pub fn bytes(&mut self, name: Name, least: usize, most: usize, default: &[u8]) -> Short
        requires bounds { (least ≤ length default.now) × (length default.now ≤ most) }
        requires room { most ≤ 32 }
        ensures said { Says (rule.hex name.now least most default.now) self.old self.new result.items }
        ensures bounds { (least ≤ length result.items) × (length result.items ≤ most) }
    {
        let judged = match self.find(name) {
            Some(value) => forms::hex_of(least, most, value),
            None => Ok(forms::list_of(default)),
        };
        let wanted = Wanted::Between(least as u64, most as u64, " bytes in hexadecimal");
        self.keep(name, wanted, judged, forms::list_of(default))
    }

    /// From so many to so many tables of a list, which has to be there.
    pub fn tables(&mut self, name: Name, least: usize, most: usize) -> &'a [Value]
        ensures said { Says (rule.tables name.now least most) self.old self.new (map table_of result.now) }
        ensures bound { length result.now ≤ most }
        ensures tables { all_tables (items_view result.now) ≡ true }
    {
        let judged: Result<&'a [Value], Wrong> = match self.find(name) {
            Some(value) => forms::tables_of(least, most, value),
            None => Err(Wrong::Missing),
        };
        let wanted = Wanted::Between(least as u64, most as u64, " tables");
        self.keep(name, wanted, judged, &[])
    }

    /// Refuses the first key that was wrong, at the place of its table.
    pub fn judged(&self, alloc: Global, prefix: &str) -> Result<(), PlanFault>
        ensures { AnswersBy (told_at prefix.now (asked_of self.now).found) result }
    {
        let Some(found) = self.found else {
            return Ok(());
        };
        let key = Key::at(alloc, prefix, found.name, found.wanted)?;
        Err(match found.wrong {
            Wrong::Missing => PlanFault::Missing(key),
            Wrong::BadValue => PlanFault::BadValue(key),
            Wrong::OverLimit => PlanFault::OverLimit(key),
        })
    }

    /// Refuses the least key of the table, byte by byte, that was never asked for.
    pub fn unknown(&self, alloc: Global, prefix: &str) -> Result<(), PlanFault>
        ensures told { AnswersBy (unknown_at prefix.now (asked_of self.now)) result }
        ensures ordered { IfSome self.now.table (λ table. IsOrdered string_cmp table.now) }
    {
        let Some(table) = self.table else {
            return Ok(());
        };
        let Some(name) = unknown_key(self.names.as_slice(), table) else {
            return Ok(());
        };
        let wanted = Wanted::Said("left out, since there is no such key");
        Err(PlanFault::BadValue(Key::at(alloc, prefix, name.as_str(), wanted)?))
    }
}

/// Whether a name is one of these.
fn is_among(names: &[&str], name: &str) -> bool
    ensures { result ≡ is_known (map (λ s. s.now) names.now) name.now }
{
    for known in names {
        if *known == name {
            return true;
        }
    }
    false
}

/// The least key of a table that is none of these. The keys ascend, so it is the first.
#[tactic(auto, using(crate::proofs::Unknown::first_is_least))]
fn unknown_key<'a>(names: &[&str], table: &'a Table) -> Option<&'a String>
    ensures least { option_map (λ k. string_bytes k.now) result ≡ least_unknown (map (λ s. s.now) names.now) (table_view table.now) }
    ensures ordered { IsOrdered string_cmp table.now }
{
    for (name, _) in table.iter() {
        if !is_among(names, name.as_str()) {
            return Some(name);
        }
    }
    None
}
