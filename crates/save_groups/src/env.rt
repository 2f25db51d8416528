//! The environments of a run: the one that is in force, the open groups and the saves (The TeXbook, chapter 24;
//! `tex.web`, part 19).
#![tactic(auto, unfolding(crate::specs::Standing::copies_of))]

ghost use Rattle.std.specs.Prelude.{◌≡◌, ◌+◌, ◌*◌, ◌==◌, ◌++◌, ◌∷◌, [], true, ℕ, pos, IsTrue, IsSome, IsErr, IfOk, IfSome, IfErr, OnOk, OnErr, Some, length, vec_len, vec_capacity, take, drop, slice_get, ◌<◌, ◌≤◌, ◌↔◌};
ghost use Rattle.std.specs.Option.{option_copied, option_map};
ghost use Rattle.std.specs.List.{list_all};
ghost use Rattle.tokens.specs.Categories.{category};
ghost use Rattle.tokens.specs.declared.stop.Stop.TheVariants.{Capacity};
ghost use Rattle.tokens.specs.declared.cap.Cap.TheVariants.{Groups};
ghost use Rattle.save_groups.specs.Keys.{is_key, holds_number, holds_glue, holds_tokens, holds_meaning, holds_table};
ghost use Rattle.save_groups.specs.InPlace.{in_place, has_box, can_swap, resized};
ghost use Rattle.tokens.specs.declared.meaning.RegKind.TheVariants as RegKind;
ghost use Rattle.save_groups.specs.Values.{fits, names_in_mode, is_in_mode};
ghost use Rattle.save_groups.specs.Environments.{beginning, updated, entered, left, innermost, told_of, with_after, level_of, kind_of, saves_inside};
ghost use Rattle.save_groups.specs.Assignment.{assigned, changes_nothing, needs_save, assigned_locally, assigned_globally, assigned_here};
ghost use Rattle.save_groups.specs.Standing.{copies_of, undone, restored};
ghost use Rattle.save_groups.specs.InForce.{at, has_room};
ghost use Rattle.save_groups.specs.Holding.{with_needed, held_in, IsHeldBy, Holds, HasFewHolders};
ghost use Rattle.save_groups.specs.Nodes.{named_by};
ghost use Rattle.save_groups.specs.Kept.{can_return, marks_of, waiting};
ghost use Rattle.save_groups.specs.declared.key.Key.{Key};
ghost use Rattle.save_groups.specs.declared.value.Value.TheVariants as kind;

use crate::current::Current;
use crate::entry::Entry;
use crate::group::{Group, Left};
use crate::heap_box::HeapBox;
use crate::key::{Key, Scope};
use crate::save::Save;
use crate::value::Value;
use nodes::BoxNode;
use scaled::Glue;
use sqlite_items::Items;
use std::alloc::{AllocError, Global};
use std::marker::Model;
use std::sync::ledger::Ledger;
use steps::Steps;
use tokens::{Cap, CatTable, Meaning, Stop, Token, TokenList};

/// How many groups can be open.
const MAX_GROUPS: usize = 255;

/// The level of what was assigned globally, or outside all groups.
const GLOBAL_LEVEL: u16 = 1;

/// All environments of a run. Contracts see what `copies_of` makes of it: one whole environment outside all groups,
/// and one more for each open group.
#[derive(Drop)]
pub struct Env {
    alloc: Global,
    extended: bool,
    current: Current,
    groups: Vec<Group>,
    saves: Vec<Save>,
}

impl Model for Env {
    ghost use Rattle.save_groups.specs.Standing.{Store};
    ghost use Rattle.nodes.specs.contracts.node.Node as node;
    ghost use Rattle.std.specs.Coded.{codes};

    ghost Value = { Store };

    ghost coded = { Prim.hlevel (codes, node.the_row.coded) };

    ghost use Rattle.save_groups.specs.Kept.{store_of, IsStanding};

    ghost view = { store_of };

    ghost invariant = { IsStanding };
}

impl Env {
    /// The environment before any assignment. It makes the room for 255 groups.
    pub fn new(alloc: Global, extended: bool) -> Result<Env, AllocError>
        ensures { IfOk result (λ env. copies_of env ≡ beginning extended) }
    {
        Ok(Env {
            alloc,
            extended,
            current: Current::new(alloc, extended)?,
            groups: Vec::with_capacity(alloc, MAX_GROUPS)?,
            saves: Vec::new(alloc),
        })
    }

    /// Whether the mode is e-TeX's extended one, in which there are registers to 32767.
    pub fn is_extended(&self) -> bool
        ensures { result ≡ (copies_of self.now).extended }
    {
        self.extended
    }

    /// A number: a `\count` or `\dimen` register (the latter in sp), an integer or dimension parameter, a code, or
    /// the number of a font.
    pub fn number(&self, key: Key) -> i32
        requires key { IsTrue (is_key (copies_of self.now).extended key) }
        requires kind { IsTrue (holds_number key) }
        ensures { ((copies_of self.now).last key).value ≡ kind.Number result }
    {
        self.current.number(key)
    }

    /// A glue: a `\skip` or `\muskip` register, or a glue parameter.
    pub fn glue(&self, key: Key) -> Glue
        requires key { IsTrue (is_key (copies_of self.now).extended key) }
        requires kind { IsTrue (holds_glue key) }
        ensures { ((copies_of self.now).last key).value ≡ kind.Glue result }
    {
        self.current.glue(key)
    }

    /// A list of tokens: a `\toks` register or a token parameter.
    pub fn toks(&self, key: Key) -> &TokenList
        requires key { IsTrue (is_key (copies_of self.now).extended key) }
        requires kind { IsTrue (holds_tokens key) }
        ensures { ((copies_of self.now).last key).value ≡ kind.Tokens result.now }
    {
        self.current.tokens(key)
    }

    /// What a name or an active character stands for. A register that it names is one of the mode's.
    pub fn meaning(&self, key: Key) -> &Meaning
        requires key { IsTrue (is_key (copies_of self.now).extended key) }
        requires kind { IsTrue (holds_meaning key) }
        ensures value { ((copies_of self.now).last key).value ≡ kind.Meaning result.now }
        ensures mode { IsTrue (names_in_mode (copies_of self.now).extended result.now) }
    {
        self.current.meaning(key)
    }

    /// A table of numbers: the shape of paragraphs, or an array of penalties.
    pub fn table(&self, key: Key) -> &[i32]
        requires key { IsTrue (is_key (copies_of self.now).extended key) }
        requires kind { IsTrue (holds_table key) }
        ensures { ((copies_of self.now).last key).value ≡ kind.Table result.now }
    {
        self.current.table(key)
    }

    /// The box of a register, if it isn't void.
    pub fn box_ref(&self, n: u16) -> Option<&BoxNode>
        requires { IsTrue (is_key (copies_of self.now).extended (Key.Register RegKind.Box n)) }
        ensures { ((copies_of self.now).last (Key.Register RegKind.Box n)).value ≡ kind.Boxed (option_copied result) }
    {
        self.current.box_ref(n)
    }

    /// The categories of all bytes.
    pub fn cats(&self) -> &CatTable
        ensures { (byte : ℕ) → byte < 256 → ((copies_of self.now).last (Key.Code 0 byte)).value ≡ kind.Number (pos (category result.now byte)) }
    {
        self.current.cats()
    }

    /// How many environments there are: 1 outside all groups.
    pub fn level(&self) -> u16
        ensures { result ≡ level_of (copies_of self.now) }
    {
        self.groups.len() as u16 + 1
    }

    /// The kind of the innermost group, a number of `\currentgrouptype`, 0 outside all groups.
    pub fn group_kind(&self) -> u8
        ensures { result ≡ kind_of (copies_of self.now).groups }
    {
        match self.groups.last() {
            Some(group) => group.kind,
            None => 0,
        }
    }

    /// How many saves there are.
    pub fn saved(&self) -> u64
        ensures { result ≡ length (copies_of self.now).saves }
    {
        self.saves.len() as u64
    }

    /// The save with exactly this many saves before it, the oldest first. A register that its meaning names is one of
    /// the mode's.
    pub fn save(&self, n: u64) -> Option<&Save>
        ensures save { option_copied result ≡ slice_get (copies_of self.now).saves n }
        ensures mode { IfSome result (λ save. IsTrue (is_in_mode (copies_of self.now).extended save.now.value)) }
    {
        self.saves.get(n as usize)
    }

    /// Begins a group of this kind at this line. It takes no memory.
    pub fn enter(&mut self, kind: u8, line: u32) -> Result<(), Stop>
        ensures full { IsErr result ↔ (255 ≤ length (copies_of self.old).groups) }
        ensures stop { IfErr result (λ stop. stop ≡ Capacity Groups) }
        ensures ok { OnOk result (copies_of self.new ≡ entered kind line (copies_of self.old)) }
        ensures err { OnErr result (copies_of self.new ≡ copies_of self.old) }
    {
        if self.groups.len() >= MAX_GROUPS {
            return Err(Stop::Capacity(Cap::Groups));
        }
        let group = Group {
            kind,
            line,
            after: Vec::new(self.alloc),
            first: self.saves.len(),
        };
        match self.groups.push(group) {
            Ok(()) => Ok(()),
            Err(_) => unreachable!(),
        }
    }

    /// Ends the innermost group: what was assigned locally in it is undone. It takes no memory, and at most two steps
    /// for each save that it undoes.
    pub fn leave<L: Ledger>(&mut self, steps: &mut Steps<L>) -> Left
        requires { IsSome (innermost (copies_of self.old)) }
        ensures left { copies_of self.new ≡ left (copies_of self.old) }
        ensures told { option_map told_of (innermost (copies_of self.old)) ≡ Some result }
        ensures steps { steps.new ≤ steps.old + 2 * length (saves_inside (level_of (copies_of self.old)) (copies_of self.old).saves) }
    {
        let Some(group) = self.groups.pop() else {
            unreachable!()
        };
        undo(&mut self.current, &mut self.saves, group.first, steps);
        Left {
            kind: group.kind,
            line: group.line,
            after: Items::from_vec(group.after),
        }
    }

    /// Puts a value into an entry, until the group ends or for good, in at most four steps. After a refusal all is as
    /// it was.
    pub fn assign<L: Ledger>(
        &mut self,
        key: Key,
        value: Value,
        scope: Scope,
        steps: &mut Steps<L>,
    ) -> Result<(), AllocError>
        requires key { IsTrue (is_key (copies_of self.old).extended key) }
        requires kind { IsTrue (fits key value) }
        requires mode { IsTrue (is_in_mode (copies_of self.old).extended value) }
        ensures ok { OnOk result (copies_of self.new ≡ assigned key value scope (copies_of self.old)) }
        ensures err { OnErr result (copies_of self.new ≡ copies_of self.old) }
        ensures steps { steps.new ≤ steps.old + 4 }
    {
        match scope {
            Scope::Local => self.assign_locally(key, value, steps),
            Scope::Global => self.assign_globally(key, value, steps),
        }
    }

    fn assign_globally<L: Ledger>(
        &mut self,
        key: Key,
        value: Value,
        steps: &mut Steps<L>,
    ) -> Result<(), AllocError>
        requires key { IsTrue (is_key (copies_of self.old).extended key) }
        requires kind { IsTrue (fits key value) }
        requires mode { IsTrue (is_in_mode (copies_of self.old).extended value) }
        ensures ok { OnOk result (copies_of self.new ≡ assigned_globally key value (copies_of self.old)) }
        ensures err { OnErr result (copies_of self.new ≡ copies_of self.old) }
        ensures steps { steps.new ≤ steps.old + 4 }
    {
        few_holders(&self.current, &self.saves);
        change(&mut self.current, key, value, GLOBAL_LEVEL, steps)
    }

    fn assign_locally<L: Ledger>(
        &mut self,
        key: Key,
        value: Value,
        steps: &mut Steps<L>,
    ) -> Result<(), AllocError>
        requires key { IsTrue (is_key (copies_of self.old).extended key) }
        requires kind { IsTrue (fits key value) }
        requires mode { IsTrue (is_in_mode (copies_of self.old).extended value) }
        ensures ok { OnOk result (copies_of self.new ≡ assigned_locally key value (copies_of self.old)) }
        ensures err { OnErr result (copies_of self.new ≡ copies_of self.old) }
        ensures steps { steps.new ≤ steps.old + 4 }
    {
        if self.changes_nothing(key, &value) {
            return Ok(());
        }
        self.assign_here(key, value, steps)
    }

    /// Whether a local assignment is of the very value that stands there, which in extended mode changes nothing.
    fn changes_nothing(&self, key: Key, value: &Value) -> bool
        requires key { IsTrue (is_key (copies_of self.now).extended key) }
        requires kind { IsTrue (fits key value.now) }
        ensures { result ≡ changes_nothing key value.now (copies_of self.now) }
    {
        self.extended && self.current.is_same(key, value)
    }

    /// A local assignment that changes the entry, whatever value stands there. It saves that where it needs to.
    fn assign_here<L: Ledger>(
        &mut self,
        key: Key,
        value: Value,
        steps: &mut Steps<L>,
    ) -> Result<(), AllocError>
        requires key { IsTrue (is_key (copies_of self.old).extended key) }
        requires kind { IsTrue (fits key value) }
        requires mode { IsTrue (is_in_mode (copies_of self.old).extended value) }
        ensures ok { OnOk result (copies_of self.new ≡ assigned_here key value (copies_of self.old)) }
        ensures err { OnErr result (copies_of self.new ≡ copies_of self.old) }
        ensures steps { steps.new ≤ steps.old + 4 }
    {
        let level = self.level();
        few_holders(&self.current, &self.saves);
        if self.needs_save(key) {
            save_and_change(&mut self.current, &mut self.saves, key, value, level, steps)
        } else {
            change(&mut self.current, key, value, level, steps)
        }
    }

    /// Whether a local assignment saves what stands in an entry: not outside all groups, and not where the entry
    /// was assigned in this group already.
    fn needs_save(&self, key: Key) -> bool
        requires { IsTrue (is_key (copies_of self.now).extended key) }
        ensures { result ≡ needs_save key (copies_of self.now) }
    {
        let level = self.level();
        level > 1 && self.current.level(key) != level
    }

    /// Changes the width, height or depth of a box, for the part 0, 1 or 2, to a size in sp, in place: in all groups
    /// from that to which the box belongs inwards. Where the box is void it tells false and changes nothing. It takes no
    /// memory.
    pub fn set_box_size(&mut self, n: u16, part: u8, value: i32) -> bool
        requires key { IsTrue (is_key (copies_of self.old).extended (Key.Register RegKind.Box n)) }
        requires part { part < 3 }
        ensures told { result ≡ has_box n (copies_of self.old).last }
        ensures resized { copies_of self.new ≡ resized n part value (copies_of self.old) }
    {
        self.current.set_box_size(n, part, value)
    }

    /// Puts a box, or void, into a register in place: in all groups from that to which the box there belongs inwards.
    /// It gives the box that stood there. A register from 256 on that is void takes no box so, since that would need
    /// memory.
    pub fn swap_box(&mut self, n: u16, b: Option<HeapBox>) -> Option<HeapBox>
        requires key { IsTrue (is_key (copies_of self.old).extended (Key.Register RegKind.Box n)) }
        requires room { IsTrue (can_swap n b (copies_of self.old).last) }
        ensures old { ((copies_of self.old).last (Key.Register RegKind.Box n)).value ≡ kind.Boxed result }
        ensures swapped { copies_of self.new ≡ in_place (Key.Register RegKind.Box n) (kind.Boxed b) (copies_of self.old) }
    {
        self.current.swap_box(n, b)
    }

    /// Lets a token wait for the end of the innermost group.
    pub fn after_group(&mut self, token: Token) -> Result<(), AllocError>
        requires { IsSome (innermost (copies_of self.old)) }
        ensures ok { OnOk result (copies_of self.new ≡ with_after token (copies_of self.old)) }
        ensures err { OnErr result (copies_of self.new ≡ copies_of self.old) }
    {
        wait(&mut self.groups, token)
    }
}

/// Lets a token wait for the end of the last group.
fn wait(groups: &mut Vec<Group>, token: Token) -> Result<(), AllocError>
    requires { 0 < vec_len groups.old }
    ensures ok { OnOk result (marks_of groups.new.items ≡ waiting token (marks_of groups.old.items)) }
    ensures err { OnErr result (marks_of groups.new.items ≡ marks_of groups.old.items) }
    ensures len { vec_len groups.new ≡ vec_len groups.old }
    ensures capacity { vec_capacity groups.new ≡ vec_capacity groups.old }
{
    let last = groups.len() - 1;
    groups[last].after.push(token)?;
    Ok(())
}

/// No register is held so often that it couldn't be held once more: there aren't as many meanings and saves.
fn few_holders(current: &Current, saves: &Vec<Save>)
    requires { IsHeldBy current.now (held_in saves.now.items) }
    ensures few { HasFewHolders current.now }
    ensures named { Holds current.now [] }
{
    current.few_names();
    let _count = saves.len();
}

/// Puts a value into an entry, which is made ready for it.
fn change<L: Ledger>(
    current: &mut Current,
    key: Key,
    value: Value,
    level: u16,
    steps: &mut Steps<L>,
) -> Result<(), AllocError>
    requires key { IsTrue (is_key true key) }
    requires kind { IsTrue (fits key value) }
    requires few { HasFewHolders current.old }
    requires named { Holds current.old [] }
    ensures ok { OnOk result ((other : Key) → at current.new other ≡ updated key (record { value = value; level = level }) (at current.old) other) }
    ensures err { OnErr result ((other : Key) → at current.new other ≡ at current.old other) }
    ensures kept { (other : Key) → IsTrue (has_room current.old other) → IsTrue (has_room current.new other) }
    ensures held { (held : Key → ℕ) → IsHeldBy current.old held → IsHeldBy current.new held }
    ensures steps { steps.new ≤ steps.old + 4 }
{
    current.prepare(key, &value, steps)?;
    let old = current.replace(key, Entry { value, level }, steps);
    current.release(key, &old.value, steps);
    Ok(())
}

/// The same, with a save of what stood there.
fn save_and_change<L: Ledger>(
    current: &mut Current,
    saves: &mut Vec<Save>,
    key: Key,
    value: Value,
    group: u16,
    steps: &mut Steps<L>,
) -> Result<(), AllocError>
    requires key { IsTrue (is_key true key) }
    requires kind { IsTrue (fits key value) }
    requires returns { IsTrue (list_all (can_return current.old) saves.old.items) }
    requires few { HasFewHolders current.old }
    requires held { IsHeldBy current.old (held_in saves.old.items) }
    ensures ok { OnOk result ((other : Key) → at current.new other ≡ updated key (record { value = value; level = group }) (at current.old) other) }
    ensures saved { OnOk result (saves.new.items ≡ saves.old.items
        ++ record { key = key; group = group; level = (at current.old key).level; value = (at current.old key).value } ∷ []) }
    ensures err { OnErr result ((other : Key) → at current.new other ≡ at current.old other) }
    ensures unsaved { OnErr result (saves.new.items ≡ saves.old.items) }
    ensures returns { IsTrue (list_all (can_return current.new) saves.new.items) }
    ensures held { IsHeldBy current.new (held_in saves.new.items) }
    ensures steps { steps.new ≤ steps.old + 4 }
{
    prepare_save(current, saves, key, &value, steps)?;
    let old = current.replace(
        key,
        Entry {
            value,
            level: group,
        },
        steps,
    );
    let save = Save {
        key,
        group,
        level: old.level,
        value: old.value,
    };
    match saves.push(save) {
        Ok(()) => Ok(()),
        Err(_) => unreachable!(),
    }
}

/// Makes an entry ready to get a value, and room for the save of the one that stands there.
fn prepare_save<L: Ledger>(
    current: &mut Current,
    saves: &mut Vec<Save>,
    key: Key,
    value: &Value,
    steps: &mut Steps<L>,
) -> Result<(), AllocError>
    requires key { IsTrue (is_key true key) }
    requires kind { IsTrue (fits key value.now) }
    requires returns { IsTrue (list_all (can_return current.old) saves.old.items) }
    requires few { HasFewHolders current.old }
    requires held { IsHeldBy current.old (held_in saves.old.items) }
    ensures same { (other : Key) → at current.new other ≡ at current.old other }
    ensures items { saves.new.items ≡ saves.old.items }
    ensures room { OnOk result (IsTrue (has_room current.new key)) }
    ensures more { OnOk result (vec_len saves.new < vec_capacity saves.new) }
    ensures returns { IsTrue (list_all (can_return current.new) saves.new.items) }
    ensures held { OnOk result (IsHeldBy current.new (with_needed key value.now (held_in saves.old.items))) }
    ensures unheld { OnErr result (IsHeldBy current.new (held_in saves.old.items)) }
    ensures steps { steps.new ≤ steps.old + 2 }
{
    current.prepare(key, value, steps)?;
    match saves.reserve(1) {
        Ok(()) => Ok(()),
        Err(refused) => {
            current.release(key, value, steps);
            Err(refused)
        }
    }
}

/// Undoes the saves behind the first ones, the newest first.
fn undo<L: Ledger>(current: &mut Current, saves: &mut Vec<Save>, first: usize, steps: &mut Steps<L>)
    requires within { first ≤ length saves.old.items }
    requires returns { IsTrue (list_all (can_return current.old) saves.old.items) }
    requires held { IsHeldBy current.old (held_in saves.old.items) }
    ensures undone { at current.new ≡ undone (drop first saves.old.items) (at current.old) }
    ensures rest { saves.new.items ≡ take first saves.old.items }
    ensures returns { IsTrue (list_all (can_return current.new) saves.new.items) }
    ensures held { IsHeldBy current.new (held_in saves.new.items) }
    ensures steps { steps.new ≤ steps.old + 2 * length (drop first saves.old.items) }
{
    'undoing: while saves.len() > first {
        let Some(save) = saves.pop() else {
            unreachable!()
        };
        put_back(current, save, steps);
    }
}

/// Undoes one save: what was assigned globally since stays.
fn put_back<L: Ledger>(current: &mut Current, save: Save, steps: &mut Steps<L>)
    requires returns { IsTrue (can_return current.old save) }
    requires held { Holds current.old (save.key ∷ named_by save.value) }
    ensures restored { (other : Key) → at current.new other ≡ restored save (at current.old) other }
    ensures kept { (other : Key) → IsTrue (has_room current.old other) → IsTrue (has_room current.new other) }
    ensures held { (held : Key → ℕ) → IsHeldBy current.old (with_needed save.key save.value held) → IsHeldBy current.new held }
    ensures steps { steps.new ≤ steps.old + 2 }
{
    let Save {
        key,
        level,
        value,
        ..
    } = save;
    if is_global(current, key) {
        current.release(key, &value, steps);
    } else {
        let old = current.replace(key, Entry { value, level }, steps);
        current.release(key, &old.value, steps);
    }
}

/// Whether an entry has the level of a global assignment.
fn is_global(current: &Current, key: Key) -> bool
    requires { IsTrue (is_key true key) }
    ensures { result ≡ ((at current.now key).level == 1) }
{
    current.level(key) == GLOBAL_LEVEL
}
