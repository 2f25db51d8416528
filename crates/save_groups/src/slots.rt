//! Entries of the six kinds of registers as values of trees: two are the same where their values and their levels
//! are.
ghost use Rattle.std.specs.Prelude.{◌≡◌};
ghost use Rattle.save_groups.specs.InTrees.{sized_box};

use crate::entry::Entry;
use crate::heap_box::HeapBox;
use crate::initial::Initial;
use scaled::Glue;
use sparse_regs::Slot;
use tokens::TokenList;

impl Slot for Entry<i32> {
    ghost use Rattle.std.specs.Prelude.{pos, refl};
    ghost use Rattle.save_groups.specs.Entries.{fresh};
    ghost use Rattle.save_groups.specs.InTrees.{same_number_entry};
    ghost use Rattle.save_groups.specs.SlotLaws.{number-symmetric, number-equal};

    ghost start = { fresh (pos 0) };

    ghost is_initial = { λ x. same_number_entry x (fresh (pos 0)) };

    ghost same = { same_number_entry };

    ghost resized = { λ part size x. x };

    fn initial() -> Entry<i32> {
        Entry { value: 0, level: 1 }
    }

    fn is_initial(&self) -> bool {
        self.value == 0 && self.level == 1
    }

    fn same(&self, other: &Entry<i32>) -> bool {
        self.value == other.value && self.level == other.level
    }

    fn resize(&mut self, _part: u8, _value: i32) {}

    ghost start_is_initial = { refl };

    ghost same_is_symmetric = { number-symmetric };

    ghost same_is_equal = { number-equal };

    ghost initial_is_same = { λ x. refl };

    ghost resized_is_initial = { λ part value x. refl };
}

impl Slot for Entry<Glue> {
    ghost use Rattle.std.specs.Prelude.{refl};
    ghost use Rattle.save_groups.specs.StartValues.{zero_glue};
    ghost use Rattle.save_groups.specs.Entries.{fresh};
    ghost use Rattle.save_groups.specs.InTrees.{same_glue_entry};
    ghost use Rattle.save_groups.specs.SlotLaws.{glue-symmetric, glue-equal};

    ghost start = { fresh zero_glue };

    ghost is_initial = { λ x. same_glue_entry x (fresh zero_glue) };

    ghost same = { same_glue_entry };

    ghost resized = { λ part size x. x };

    fn initial() -> Entry<Glue> {
        Entry {
            value: Glue::initial(),
            level: 1,
        }
    }

    fn is_initial(&self) -> bool {
        self.value.is_same(Glue::initial()) && self.level == 1
    }

    fn same(&self, other: &Entry<Glue>) -> bool {
        self.value.is_same(other.value) && self.level == other.level
    }

    fn resize(&mut self, _part: u8, _value: i32) {}

    ghost start_is_initial = { refl };

    ghost same_is_symmetric = { glue-symmetric };

    ghost same_is_equal = { glue-equal };

    ghost initial_is_same = { λ x. refl };

    ghost resized_is_initial = { λ part value x. refl };
}

impl Slot for Entry<TokenList> {
    ghost use Rattle.std.specs.Prelude.{refl, []};
    ghost use Rattle.save_groups.specs.Entries.{fresh};
    ghost use Rattle.save_groups.specs.InTrees.{same_list_entry};
    ghost use Rattle.save_groups.specs.SlotLaws.{list-symmetric, list-equal};

    ghost start = { fresh [] };

    ghost is_initial = { λ x. same_list_entry x (fresh []) };

    ghost same = { same_list_entry };

    ghost resized = { λ part size x. x };

    fn initial() -> Entry<TokenList> {
        Entry {
            value: TokenList::empty(),
            level: 1,
        }
    }

    fn is_initial(&self) -> bool {
        let empty = TokenList::empty();
        self.value.is_same(&empty) && self.level == 1
    }

    fn same(&self, other: &Entry<TokenList>) -> bool {
        self.value.is_same(&other.value) && self.level == other.level
    }

    fn resize(&mut self, _part: u8, _value: i32) {}

    ghost start_is_initial = { refl };

    ghost same_is_symmetric = { list-symmetric };

    ghost same_is_equal = { list-equal };

    ghost initial_is_same = { λ x. refl };

    ghost resized_is_initial = { λ part value x. refl };
}

impl Slot for Entry<Option<HeapBox>> {
    ghost use Rattle.std.specs.Prelude.{refl, None};
    ghost use Rattle.save_groups.specs.Entries.{fresh};
    ghost use Rattle.save_groups.specs.InTrees.{same_box_entry, sized_entry};
    ghost use Rattle.save_groups.specs.SlotLaws.{box-symmetric, box-equal, box-sized};

    ghost start = { fresh None };

    ghost is_initial = { λ x. same_box_entry x (fresh None) };

    ghost same = { same_box_entry };

    ghost resized = { sized_entry };

    fn initial() -> Entry<Option<HeapBox>> {
        Entry {
            value: None,
            level: 1,
        }
    }

    fn is_initial(&self) -> bool {
        self.value.is_none() && self.level == 1
    }

    fn same(&self, other: &Entry<Option<HeapBox>>) -> bool {
        self.value.is_none() && other.value.is_none() && self.level == other.level
    }

    fn resize(&mut self, part: u8, value: i32) {
        resize_box(&mut self.value, part, value);
    }

    ghost start_is_initial = { refl };

    ghost same_is_symmetric = { box-symmetric };

    ghost same_is_equal = { box-equal };

    ghost initial_is_same = { λ x. refl };

    ghost resized_is_initial = { box-sized };
}

/// Changes a size of a box that isn't void. A part above 2 is the depth, too.
fn resize_box(content: &mut Option<HeapBox>, part: u8, size: i32)
    ensures { content.new ≡ sized_box part size content.old }
{
    if let Some(content) = content {
        match part {
            0 => content.set_size(0, size),
            1 => content.set_size(1, size),
            _ => content.set_size(2, size),
        }
    }
}
