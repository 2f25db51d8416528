//! What of the environment that is in force stands in tables, where it is one index away: all but the registers from
//! 256 on.
ghost use Rattle.std.specs.Prelude.{◌≡◌, ◌+◌, ◌-◌, ◌*◌, ◌^◌, ◌<◌, ◌≤◌, [], true, IsTrue, IfOk, OnOk};
ghost use Rattle.std.specs.Option.{option_copied};
ghost use Rattle.tokens.specs.declared.meaning.RegKind.TheVariants as RegKind;
ghost use Rattle.save_groups.specs.Environments.{start_environment, updated};
ghost use Rattle.save_groups.specs.Entries.{at, has_room, as_value, code_place, family_place, with_number, with_glue, with_tokens, with_meaning, with_box, with_table};
ghost use Rattle.save_groups.specs.Keys.{is_key, is_glue_parameter, is_token_parameter, holds_number, holds_glue, holds_tokens, holds_meaning, holds_box, holds_table};
ghost use Rattle.save_groups.specs.InPlace.{refilled, can_swap, has_box, resized_here};
ghost use Rattle.save_groups.specs.Values.{fits, is_number_of, is_category};
ghost use Rattle.save_groups.specs.InTrees.{count_of};
ghost use Rattle.save_groups.specs.Holding.{named_count};
ghost use Rattle.save_groups.specs.Nodes.{named_by};
ghost use Rattle.save_groups.specs.declared.key.Key.{Key};
ghost use Rattle.save_groups.specs.declared.value.Value.TheVariants as kind;

use crate::entry::Entry;
use crate::heap_box::HeapBox;
use crate::initial::Initial;
use crate::key::Key;
use crate::parameters::{EVERY_EOF, FIRST_EXTENDED, FIRST_GLUE, FIRST_TOKENS, PARAMETER_COUNT};
use crate::value::Value;
use crate::{start, table};
use nodes::BoxNode;
use scaled::Glue;
use sqlite_items::Items;
use std::alloc::{AllocError, Global};
use std::marker::Model;
use std::mem;
use tokens::{CatTable, Meaning, RegKind, TokenList};

/// The value and the level of every entry.
#[derive(Drop)]
pub struct Tables {
    counts: Vec<Entry<i32>>,
    dimens: Vec<Entry<i32>>,
    skips: Vec<Entry<Glue>>,
    muskips: Vec<Entry<Glue>>,
    boxes: Vec<Entry<Option<HeapBox>>>,
    lists: Vec<Entry<TokenList>>,
    number_parameters: Vec<Entry<i32>>,
    glue_parameters: Vec<Entry<Glue>>,
    token_parameters: Vec<Entry<TokenList>>,
    categories: CatTable,
    category_levels: [u16; 256],
    /// The other five tables of codes, row after row.
    codes: Vec<Entry<i32>>,
    names: Vec<Entry<Meaning>>,
    actives: Vec<Entry<Meaning>>,
    font: Entry<i32>,
    /// The fonts of the 16 families, in three sizes, row after row.
    families: Vec<Entry<i32>>,
    shape: Entry<Items<i32>>,
    penalties: Vec<Entry<Items<i32>>>,
    /// What stands behind the ends of tables, to be lent.
    no_tokens: TokenList,
    undefined: Meaning,
}

impl Model for Tables {
    ghost use Rattle.save_groups.specs.Entries.{Entries};
    ghost use Rattle.save_groups.specs.InsideTables.{entries_code};

    ghost Value = { Entries };

    ghost coded = { entries_code };

    ghost use Rattle.save_groups.specs.InsideTables.{entries_of, AreFull};

    ghost view = { entries_of };

    ghost invariant = { AreFull };
}

/// Whether the parameter at a place is a glue.
fn is_glue_parameter(place: u8) -> bool
    ensures { result ≡ is_glue_parameter place }
{
    FIRST_GLUE <= place && place < FIRST_TOKENS
}

/// Whether it is a list of tokens.
fn is_token_parameter(place: u8) -> bool
    ensures { result ≡ is_token_parameter place }
{
    FIRST_TOKENS <= place && place < FIRST_EXTENDED || place == EVERY_EOF
}

/// The place of a code in the five tables, of which the first is that of `\lccode`.
fn code_place(table: u8, byte: u8) -> usize
    requires { 0 < table }
    ensures { result ≡ code_place (table - 1) byte }
{
    256 * (table as usize - 1) + byte as usize
}

/// The place of a font of a family.
fn family_place(size: u8, number: u8) -> usize
    ensures { result ≡ family_place size number }
{
    16 * size as usize + number as usize
}

/// The box of a register that isn't void.
fn lent(content: &Option<HeapBox>) -> Option<&BoxNode>
    ensures { option_copied result ≡ content.now }
{
    match content {
        Some(content) => Some(content.get()),
        None => None,
    }
}

impl Tables {
    /// The values of the start.
    pub fn new(alloc: Global, extended: bool) -> Result<Tables, AllocError>
        ensures start { IfOk result (λ tables. (key : Key) → at tables key ≡ start_environment extended key) }
        ensures named { IfOk result (λ tables. (key : Key) → named_count key tables ≡ 0) }
    {
        Ok(Tables {
            counts: Vec::new(alloc),
            dimens: Vec::new(alloc),
            skips: Vec::new(alloc),
            muskips: Vec::new(alloc),
            boxes: start::start_boxes(alloc)?,
            lists: Vec::new(alloc),
            number_parameters: start::start_numbers(alloc)?,
            glue_parameters: Vec::new(alloc),
            token_parameters: Vec::new(alloc),
            categories: CatTable::initial(),
            category_levels: start::start_levels(),
            codes: start::start_codes(alloc)?,
            names: start::start_names(alloc, extended)?,
            actives: Vec::new(alloc),
            font: Entry { value: 0, level: 1 },
            families: Vec::new(alloc),
            shape: start::table_entry(alloc, 0),
            penalties: start::start_penalties(alloc)?,
            no_tokens: TokenList::empty(),
            undefined: Meaning::Undefined,
        })
    }

    /// The categories.
    pub fn cats(&self) -> &CatTable
        ensures { result.now ≡ self.now.categories }
    {
        &self.categories
    }

    /// A number.
    pub fn number(&self, key: Key) -> i32
        requires key { IsTrue (is_key true key) }
        requires kind { IsTrue (holds_number key) }
        ensures { (at self.now key).value ≡ kind.Number result }
    {
        match key {
            Key::Register {
                kind: RegKind::Count,
                number,
            } => *table::value_at(&self.counts, number as usize, &0),
            Key::Register {
                kind: RegKind::Dimen,
                number,
            } => *table::value_at(&self.dimens, number as usize, &0),
            Key::Parameter(place) => self.number_parameters[place as usize].value,
            Key::Code { table: 0, byte } => i32::from(self.categories.get(byte)),
            Key::Code { table, byte } => self.codes[code_place(table, byte)].value,
            Key::CurrentFont => self.font.value,
            Key::Family { size, number } => *table::value_at(
                &self.families,
                family_place(size, number),
                &0,
            ),
            _ => unreachable!(),
        }
    }

    /// A glue.
    pub fn glue(&self, key: Key) -> Glue
        requires kind { IsTrue (holds_glue key) }
        ensures { (at self.now key).value ≡ kind.Glue result }
    {
        match key {
            Key::Register {
                kind: RegKind::Skip,
                number,
            } => *table::value_at(&self.skips, number as usize, &Glue::initial()),
            Key::Register {
                kind: RegKind::Muskip,
                number,
            } => *table::value_at(&self.muskips, number as usize, &Glue::initial()),
            Key::Parameter(place) => *table::value_at(
                &self.glue_parameters,
                place as usize,
                &Glue::initial(),
            ),
            _ => unreachable!(),
        }
    }

    /// A list of tokens.
    pub fn tokens(&self, key: Key) -> &TokenList
        requires kind { IsTrue (holds_tokens key) }
        ensures { (at self.now key).value ≡ kind.Tokens result.now }
    {
        match key {
            Key::Register {
                kind: RegKind::Toks,
                number,
            } => table::value_at(&self.lists, number as usize, &self.no_tokens),
            Key::Parameter(place) => table::value_at(
                &self.token_parameters,
                place as usize,
                &self.no_tokens,
            ),
            _ => unreachable!(),
        }
    }

    /// A meaning.
    pub fn meaning(&self, key: Key) -> &Meaning
        requires kind { IsTrue (holds_meaning key) }
        ensures { (at self.now key).value ≡ kind.Meaning result.now }
    {
        match key {
            Key::Name(id) => table::value_at(&self.names, id.0 as usize, &self.undefined),
            Key::Active(byte) => table::value_at(&self.actives, byte as usize, &self.undefined),
            _ => unreachable!(),
        }
    }

    /// A box, if it isn't void.
    pub fn box_ref(&self, number: u16) -> Option<&BoxNode>
        ensures { (at self.now (Key.Register RegKind.Box number)).value ≡ kind.Boxed (option_copied result) }
    {
        match self.boxes.get(number as usize) {
            Some(entry) => lent(&entry.value),
            None => None,
        }
    }

    /// A table of numbers.
    pub fn table(&self, key: Key) -> &[i32]
        requires key { IsTrue (is_key true key) }
        requires kind { IsTrue (holds_table key) }
        ensures { (at self.now key).value ≡ kind.Table result.now }
    {
        match key {
            Key::Shape => self.shape.value.as_slice(),
            Key::Penalties(array) => self.penalties[array as usize].value.as_slice(),
            _ => unreachable!(),
        }
    }

    /// The level of an entry.
    pub fn level(&self, key: Key) -> u16
        requires key { IsTrue (is_key true key) }
        ensures { result ≡ (at self.now key).level }
    {
        match key {
            Key::Register { kind, number } => self.register_level(kind, number as usize),
            Key::Parameter(place) => self.parameter_level(place),
            Key::Code { table: 0, byte } => self.category_levels[byte as usize],
            Key::Code { table, byte } => table::level_at(&self.codes, code_place(table, byte)),
            Key::Name(id) => table::level_at(&self.names, id.0 as usize),
            Key::Active(byte) => table::level_at(&self.actives, byte as usize),
            Key::CurrentFont => self.font.level,
            Key::Family { size, number } => table::level_at(
                &self.families,
                family_place(size, number),
            ),
            Key::Shape => self.shape.level,
            Key::Penalties(array) => table::level_at(&self.penalties, array as usize),
        }
    }

    fn register_level(&self, kind: RegKind, number: usize) -> u16
        ensures { result ≡ (at self.now (Key.Register kind number)).level }
    {
        match kind {
            RegKind::Count => table::level_at(&self.counts, number),
            RegKind::Dimen => table::level_at(&self.dimens, number),
            RegKind::Skip => table::level_at(&self.skips, number),
            RegKind::Muskip => table::level_at(&self.muskips, number),
            RegKind::Box => table::level_at(&self.boxes, number),
            RegKind::Toks => table::level_at(&self.lists, number),
        }
    }

    fn parameter_level(&self, place: u8) -> u16
        ensures { result ≡ (at self.now (Key.Parameter place)).level }
    {
        if is_glue_parameter(place) {
            table::level_at(&self.glue_parameters, place as usize)
        } else if is_token_parameter(place) {
            table::level_at(&self.token_parameters, place as usize)
        } else {
            table::level_at(&self.number_parameters, place as usize)
        }
    }

    /// The list of tokens of the start, to be lent.
    pub fn no_tokens(&self) -> &TokenList
        ensures { result.now ≡ [] }
    {
        &self.no_tokens
    }

    /// Meanings name no register more often than there are entries.
    pub fn few_names(&self)
        ensures { (key : Key) → named_count key self.now ≤ 2 ^ 65 }
    {
        let _names = &self.names;
    }

    /// Makes the tables reach an entry.
    pub fn reserve(&mut self, key: Key) -> Result<(), AllocError>
        requires { IsTrue (is_key true key) }
        ensures same { (other : Key) → at self.new other ≡ at self.old other }
        ensures room { OnOk result (IsTrue (has_room self.new key)) }
        ensures kept { (other : Key) → IsTrue (has_room self.old other) → IsTrue (has_room self.new other) }
        ensures named { (other : Key) → named_count other self.new ≡ named_count other self.old }
    {
        match key {
            Key::Register {
                kind: RegKind::Count,
                number,
            } => table::reserve(&mut self.counts, number as usize),
            Key::Register {
                kind: RegKind::Dimen,
                number,
            } => table::reserve(&mut self.dimens, number as usize),
            Key::Register {
                kind: RegKind::Skip,
                number,
            } => table::reserve(&mut self.skips, number as usize),
            Key::Register {
                kind: RegKind::Muskip,
                number,
            } => table::reserve(&mut self.muskips, number as usize),
            Key::Register {
                kind: RegKind::Toks,
                number,
            } => table::reserve(&mut self.lists, number as usize),
            Key::Register {
                kind: RegKind::Box,
                number,
            } => table::reserve(&mut self.boxes, number as usize),
            Key::Parameter(place) => self.reserve_parameter(place),
            Key::Code { .. } => {
                let _codes = &self.codes;
                Ok(())
            }
            Key::CurrentFont => Ok(()),
            Key::Shape => Ok(()),
            Key::Penalties(_) => {
                let _penalties = &self.penalties;
                Ok(())
            }
            Key::Name(id) => table::reserve(&mut self.names, id.0 as usize),
            Key::Active(byte) => table::reserve(&mut self.actives, byte as usize),
            Key::Family { size, number } => table::reserve(
                &mut self.families,
                family_place(size, number),
            ),
        }
    }

    fn reserve_parameter(&mut self, place: u8) -> Result<(), AllocError>
        requires { place < PARAMETER_COUNT }
        ensures same { (other : Key) → at self.new other ≡ at self.old other }
        ensures room { OnOk result (IsTrue (has_room self.new (Key.Parameter place))) }
        ensures kept { (other : Key) → IsTrue (has_room self.old other) → IsTrue (has_room self.new other) }
        ensures named { (other : Key) → named_count other self.new ≡ named_count other self.old }
    {
        if is_glue_parameter(place) {
            table::reserve(&mut self.glue_parameters, place as usize)
        } else if is_token_parameter(place) {
            table::reserve(&mut self.token_parameters, place as usize)
        } else {
            Ok(())
        }
    }

    /// Puts a number into an entry that the tables reach, and gives what stood there.
    fn replace_number(&mut self, key: Key, entry: Entry<i32>) -> Entry<i32>
        requires room { IsTrue (has_room self.old key) }
        requires kind { IsTrue (holds_number key) }
        requires range { IsTrue (is_number_of key entry.value) }
        ensures old { as_value kind.Number result ≡ at self.old key }
        ensures range { IsTrue (is_number_of key result.value) }
        ensures new { self.new ≡ with_number key entry self.old }
        ensures names { self.new.names ≡ self.old.names }
        ensures actives { self.new.actives ≡ self.old.actives }
    {
        match key {
            Key::Register {
                kind: RegKind::Count,
                number,
            } => table::replace(&mut self.counts, number as usize, entry),
            Key::Register {
                kind: RegKind::Dimen,
                number,
            } => table::replace(&mut self.dimens, number as usize, entry),
            Key::Parameter(place) => table::replace(
                &mut self.number_parameters,
                place as usize,
                entry,
            ),
            Key::Code { table: 0, byte } => self.replace_category(byte, entry),
            Key::Code { table, byte } => table::replace(
                &mut self.codes,
                code_place(table, byte),
                entry,
            ),
            Key::CurrentFont => mem::replace(&mut self.font, entry),
            Key::Family { size, number } => table::replace(
                &mut self.families,
                family_place(size, number),
                entry,
            ),
            _ => unreachable!(),
        }
    }

    fn replace_category(&mut self, byte: u8, entry: Entry<i32>) -> Entry<i32>
        requires { IsTrue (is_category entry.value) }
        ensures old { as_value kind.Number result ≡ at self.old (Key.Code 0 byte) }
        ensures range { IsTrue (is_category result.value) }
        ensures new { self.new ≡ with_number (Key.Code 0 byte) entry self.old }
        ensures names { self.new.names ≡ self.old.names }
        ensures actives { self.new.actives ≡ self.old.actives }
    {
        let value = i32::from(self.categories.get(byte));
        let level = self.category_levels[byte as usize];
        self.categories.set(byte, entry.value as u8);
        self.category_levels[byte as usize] = entry.level;
        Entry { value, level }
    }

    fn replace_glue(&mut self, key: Key, entry: Entry<Glue>) -> Entry<Glue>
        requires room { IsTrue (has_room self.old key) }
        requires kind { IsTrue (holds_glue key) }
        ensures old { as_value kind.Glue result ≡ at self.old key }
        ensures new { self.new ≡ with_glue key entry self.old }
        ensures names { self.new.names ≡ self.old.names }
        ensures actives { self.new.actives ≡ self.old.actives }
    {
        match key {
            Key::Register {
                kind: RegKind::Skip,
                number,
            } => table::replace(&mut self.skips, number as usize, entry),
            Key::Register {
                kind: RegKind::Muskip,
                number,
            } => table::replace(&mut self.muskips, number as usize, entry),
            Key::Parameter(place) => table::replace(
                &mut self.glue_parameters,
                place as usize,
                entry,
            ),
            _ => unreachable!(),
        }
    }

    fn replace_tokens(&mut self, key: Key, entry: Entry<TokenList>) -> Entry<TokenList>
        requires room { IsTrue (has_room self.old key) }
        requires kind { IsTrue (holds_tokens key) }
        ensures old { as_value kind.Tokens result ≡ at self.old key }
        ensures new { self.new ≡ with_tokens key entry self.old }
        ensures names { self.new.names ≡ self.old.names }
        ensures actives { self.new.actives ≡ self.old.actives }
    {
        match key {
            Key::Register {
                kind: RegKind::Toks,
                number,
            } => table::replace(&mut self.lists, number as usize, entry),
            Key::Parameter(place) => table::replace(
                &mut self.token_parameters,
                place as usize,
                entry,
            ),
            _ => unreachable!(),
        }
    }

    fn replace_meaning(&mut self, key: Key, entry: Entry<Meaning>) -> Entry<Meaning>
        requires room { IsTrue (has_room self.old key) }
        requires kind { IsTrue (holds_meaning key) }
        ensures old { as_value kind.Meaning result ≡ at self.old key }
        ensures new { self.new ≡ with_meaning key entry self.old }
    {
        match key {
            Key::Name(id) => table::replace(&mut self.names, id.0 as usize, entry),
            Key::Active(byte) => table::replace(&mut self.actives, byte as usize, entry),
            _ => unreachable!(),
        }
    }

    fn replace_box(&mut self, key: Key, entry: Entry<Option<HeapBox>>) -> Entry<Option<HeapBox>>
        requires room { IsTrue (has_room self.old key) }
        requires kind { IsTrue (holds_box key) }
        ensures old { as_value kind.Boxed result ≡ at self.old key }
        ensures new { self.new ≡ with_box key entry self.old }
        ensures names { self.new.names ≡ self.old.names }
        ensures actives { self.new.actives ≡ self.old.actives }
    {
        match key {
            Key::Register {
                kind: RegKind::Box,
                number,
            } => table::replace(&mut self.boxes, number as usize, entry),
            _ => unreachable!(),
        }
    }

    fn replace_table(&mut self, key: Key, entry: Entry<Items<i32>>) -> Entry<Items<i32>>
        requires room { IsTrue (has_room self.old key) }
        requires kind { IsTrue (holds_table key) }
        ensures old { as_value kind.Table result ≡ at self.old key }
        ensures new { self.new ≡ with_table key entry self.old }
        ensures names { self.new.names ≡ self.old.names }
        ensures actives { self.new.actives ≡ self.old.actives }
    {
        match key {
            Key::Shape => mem::replace(&mut self.shape, entry),
            Key::Penalties(array) => table::replace(&mut self.penalties, array as usize, entry),
            _ => unreachable!(),
        }
    }

    /// Puts a value into an entry that the tables reach, and gives what stood there.
    pub fn replace(&mut self, key: Key, entry: Entry<Value>) -> Entry<Value>
        requires room { IsTrue (has_room self.old key) }
        requires kind { IsTrue (fits key entry.value) }
        ensures old { result ≡ at self.old key }
        ensures fits { IsTrue (fits key result.value) }
        ensures new { (other : Key) → at self.new other ≡ updated key entry (at self.old) other }
        ensures kept { (other : Key) → IsTrue (has_room self.old other) → IsTrue (has_room self.new other) }
        ensures named { (other : Key) → named_count other self.new + count_of other (named_by result.value) ≡ named_count other self.old + count_of other (named_by entry.value) }
    {
        let Entry { value, level } = entry;
        match value {
            Value::Number(value) => {
                let old = self.replace_number(key, Entry { value, level });
                Entry {
                    value: Value::Number(old.value),
                    level: old.level,
                }
            }
            Value::Glue(value) => {
                let old = self.replace_glue(key, Entry { value, level });
                Entry {
                    value: Value::Glue(old.value),
                    level: old.level,
                }
            }
            Value::Tokens(value) => {
                let old = self.replace_tokens(key, Entry { value, level });
                Entry {
                    value: Value::Tokens(old.value),
                    level: old.level,
                }
            }
            Value::Meaning(value) => {
                let old = self.replace_meaning(key, Entry { value, level });
                Entry {
                    value: Value::Meaning(old.value),
                    level: old.level,
                }
            }
            Value::Boxed(value) => {
                let old = self.replace_box(key, Entry { value, level });
                Entry {
                    value: Value::Boxed(old.value),
                    level: old.level,
                }
            }
            Value::Table(value) => {
                let old = self.replace_table(key, Entry { value, level });
                Entry {
                    value: Value::Table(old.value),
                    level: old.level,
                }
            }
        }
    }

    /// Puts a box, or void, into a register that the table reaches, at the level that it has, and gives what stood
    /// there.
    fn refill_box(&mut self, number: u16, content: Option<HeapBox>) -> Option<HeapBox>
        requires { IsTrue (has_room self.old (Key.Register RegKind.Box number)) }
        ensures old { (at self.old (Key.Register RegKind.Box number)).value ≡ kind.Boxed result }
        ensures new { (other : Key) → at self.new other ≡ refilled (Key.Register RegKind.Box number) (kind.Boxed content) (at self.old) other }
        ensures kept { (other : Key) → IsTrue (has_room self.old other) → IsTrue (has_room self.new other) }
        ensures named { (other : Key) → named_count other self.new ≡ named_count other self.old }
    {
        let key = Key::Register {
            kind: RegKind::Box,
            number,
        };
        let level = self.register_level(RegKind::Box, number as usize);
        let value = Value::Boxed(content);
        match self.replace(key, Entry { value, level }).value {
            Value::Boxed(old) => old,
            _ => unreachable!(),
        }
    }

    /// The same for any register, where what is put there is void, or the table reaches it, or a box stands there.
    pub fn swap_box(&mut self, number: u16, content: Option<HeapBox>) -> Option<HeapBox>
        requires { IsTrue (can_swap number content (at self.old)) }
        ensures old { (at self.old (Key.Register RegKind.Box number)).value ≡ kind.Boxed result }
        ensures new { (other : Key) → at self.new other ≡ refilled (Key.Register RegKind.Box number) (kind.Boxed content) (at self.old) other }
        ensures kept { (other : Key) → IsTrue (has_room self.old other) → IsTrue (has_room self.new other) }
        ensures named { (other : Key) → named_count other self.new ≡ named_count other self.old }
    {
        if self.boxes.len() <= number as usize {
            return None;
        }
        self.refill_box(number, content)
    }

    /// Changes a size of a box that isn't void.
    pub fn set_box_size(&mut self, number: u16, part: u8, size: i32) -> bool
        requires { part < 3 }
        ensures told { result ≡ has_box number (at self.old) }
        ensures new { (other : Key) → at self.new other ≡ resized_here number part size (at self.old) other }
        ensures kept { (other : Key) → IsTrue (has_room self.old other) → IsTrue (has_room self.new other) }
        ensures named { (other : Key) → named_count other self.new ≡ named_count other self.old }
    {
        if self.boxes.len() <= number as usize {
            return false;
        }
        match self.refill_box(number, None) {
            Some(mut content) => {
                content.set_size(part, size);
                let _void = self.refill_box(number, Some(content));
                true
            }
            None => false,
        }
    }
}
