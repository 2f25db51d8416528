//! Where the walk through a box is, and the commands so far (`tex.web`, sections 616 to 624 and 633).
ghost use Rattle.std.specs.Prelude.{◌≡◌, ◌∷◌, ◌++◌, [], OnOk, IfOk, pos};
ghost use Rattle.dvi_out.specs.declared.command.Command.TheVariants.{SetRule, PutRule};
ghost use Rattle.dvi_out.specs.SpellingWalk.{list_begun, walk, to_h, to_v, with_reader, with_command, synched_h, synched_v, entered, is_push, popped, left, glued, space_of, with_character, with_special, rule_across, rule_down, with_rule, with_rule_leaders, advanced, with_glue, frame_of, at_box, behind_box, past_box, sizes_of, copies_in, at_copy, behind_copy, along};
ghost use Rattle.std.specs.Option.{option_copied};
ghost use Rattle.dvi_out.specs.WalkOf.{walk_of};
ghost use Rattle.dvi_out.specs.FrameOf.{frame};
ghost use Rattle.dvi_out.specs.CopiesOf.{counted};
ghost use Rattle.dvi_out.specs.Outside.{Keeps, left_to};

use crate::command::Command;
use crate::growth::{Spread, copies_of, growth, part_of};
use crate::positions::{minus, onward, plus};
use nodes::{BoxNode, GlueSet};
use scaled::Glue;
use sqlite_items::{Boxed, Items};
use std::alloc::{AllocError, Global};

/// A walk through a box. Positions and sizes are in sp.
#[derive(Drop)]
pub(crate) struct Walker {
    pub(crate) alloc: Global,
    /// Where the walk is.
    pub(crate) h: i32,
    pub(crate) v: i32,
    /// Where the reader of the commands is.
    pub(crate) reader_h: i32,
    pub(crate) reader_v: i32,
    /// How much of the glue so far takes part in the setting of the list's box.
    pub(crate) sum: i64,
    /// By how much that glue grew.
    pub(crate) grown: i32,
    /// How many lists that haven't ended began with a push, and the most that did.
    pub(crate) depth: u64,
    pub(crate) deepest: u64,
    pub(crate) commands: Vec<Command>,
}

/// What a list knows of the box around it.
#[derive(Clone, Copy)]
pub(crate) struct Surroundings {
    pub(crate) vertical: bool,
    pub(crate) width: i32,
    pub(crate) height: i32,
    pub(crate) depth: i32,
    pub(crate) set: GlueSet,
    pub(crate) left_edge: i32,
    /// The baseline, or in a vertical list the top.
    pub(crate) level: i32,
}

/// The list of a box, and what is as before behind it: the reader's place and the glue of the list around.
#[derive(Clone, Copy)]
pub(crate) struct Inside {
    pub(crate) around: Surroundings,
    reader_h: i32,
    reader_v: i32,
    sum: i64,
    grown: i32,
}

impl Walker {
    #[inline(always)]
    fn put(&mut self, command: Command) -> Result<(), AllocError>
        ensures { OnOk result (walk_of self.new ≡ with_command command (walk_of self.old)) }
    {
        self.commands.reserve(1)?;
        self.commands.push_reserved(command);
        Ok(())
    }

    /// Brings the reader to the walk's place, horizontally.
    #[tactic(auto, unfolding(crate::specs::SpellingWalk::synched_h))]
    #[inline(always)]
    pub(crate) fn synch_h(&mut self) -> Result<(), AllocError>
        ensures { OnOk result (walk_of self.new ≡ synched_h (walk_of self.old)) }
    {
        if self.h != self.reader_h {
            self.put(Command::Right(minus(self.h, self.reader_h)))?;
            self.reader_h = self.h;
        }
        Ok(())
    }

    /// Brings the reader to the walk's place, vertically.
    #[tactic(auto, unfolding(crate::specs::SpellingWalk::synched_v))]
    #[inline(always)]
    pub(crate) fn synch_v(&mut self) -> Result<(), AllocError>
        ensures { OnOk result (walk_of self.new ≡ synched_v (walk_of self.old)) }
    {
        if self.v != self.reader_v {
            self.put(Command::Down(minus(self.v, self.reader_v)))?;
            self.reader_v = self.v;
        }
        Ok(())
    }

    /// A list begins with a push. No memory holds so many lists in one another that the depth can't be counted.
    #[tactic(auto, unfolding(crate::specs::SpellingWalk::entered))]
    pub(crate) fn enter(&mut self) -> Result<(), AllocError>
        ensures { OnOk result (walk_of self.new ≡ entered (walk_of self.old)) }
    {
        let Some(depth) = self.depth.checked_add(1) else {
            return Err(AllocError);
        };
        self.depth = depth;
        self.deepest = self.deepest.max(depth);
        self.commands.push(Command::Push)?;
        Ok(())
    }

    /// A list ends with a pop; where nothing stands between it and its push, neither stays.
    #[tactic(auto, unfolding(crate::specs::SpellingWalk::popped, crate::specs::SpellingWalk::left))]
    pub(crate) fn leave(&mut self) -> Result<(), AllocError>
        ensures { OnOk result (walk_of self.new ≡ left (walk_of self.old)) }
    {
        self.depth = self.depth.saturating_sub(1);
        if is_push(self.commands.last()) {
            self.commands.pop();
        } else {
            self.commands.push(Command::Pop)?;
        }
        Ok(())
    }

    /// The walk goes on in the direction of the list.
    #[tactic(auto, unfolding(crate::specs::SpellingWalk::advanced))]
    pub(crate) fn advance(&mut self, around: &Surroundings, by: i32)
        ensures { walk_of self.new ≡ advanced (frame around.now) by (walk_of self.old) }
    {
        if around.vertical {
            self.v = plus(self.v, by);
        } else {
            self.h = plus(self.h, by);
        }
    }

    /// A list begins: that of a box whose left edge and baseline are where the walk is.
    pub(crate) fn begin_list(&mut self, boxed: &BoxNode) -> Surroundings
        ensures around { frame result ≡ frame_of boxed.now (walk_of self.old) }
        ensures walk { walk_of self.new ≡ list_begun boxed.now (walk_of self.old) }
    {
        let level = if boxed.vertical {
            minus(self.v, boxed.height)
        } else {
            self.v
        };
        self.v = level;
        self.sum = 0;
        self.grown = 0;
        Surroundings {
            vertical: boxed.vertical,
            width: boxed.width,
            height: boxed.height,
            depth: boxed.depth,
            set: boxed.set,
            left_edge: self.h,
            level,
        }
    }

    /// The list of a box begins with a push.
    pub(crate) fn enter_box(&mut self, boxed: &BoxNode) -> Result<Inside, AllocError>
        ensures around { IfOk result (λ inside. frame inside.around ≡ frame_of boxed.now (entered (walk_of self.old))) }
        ensures walk { OnOk result (walk_of self.new ≡ list_begun boxed.now (entered (walk_of self.old))) }
        ensures outside { IfOk result (λ inside. Keeps inside (walk_of self.old)) }
    {
        let (reader_h, reader_v) = (self.reader_h, self.reader_v);
        let (sum, grown) = (self.sum, self.grown);
        self.enter()?;
        let around = self.begin_list(boxed);
        Ok(Inside {
            around,
            reader_h,
            reader_v,
            sum,
            grown,
        })
    }

    /// The list of a box ends with a pop.
    pub(crate) fn leave_box(&mut self, inside: &Inside) -> Result<(), AllocError>
        ensures { OnOk result (walk_of self.new ≡ left_to inside.now (left (walk_of self.old))) }
    {
        self.leave()?;
        self.reader_h = inside.reader_h;
        self.reader_v = inside.reader_v;
        self.sum = inside.sum;
        self.grown = inside.grown;
        Ok(())
    }

    /// Goes to the place of a box in a list. In a vertical list the reader is brought to its baseline.
    #[tactic(auto, unfolding(crate::specs::SpellingWalk::at_box))]
    pub(crate) fn go_to_box(
        &mut self,
        around: &Surroundings,
        boxed: &BoxNode,
    ) -> Result<(), AllocError>
        ensures { OnOk result (walk_of self.new ≡ at_box (frame around.now) (sizes_of boxed.now) (walk_of self.old)) }
    {
        if around.vertical {
            self.v = plus(self.v, boxed.height);
            self.synch_v()?;
            self.h = plus(around.left_edge, boxed.shift);
        } else {
            self.v = plus(around.level, boxed.shift);
        }
        Ok(())
    }

    /// Goes behind a box of a list, where the walk was at a place before.
    #[tactic(auto, unfolding(crate::specs::SpellingWalk::behind_box))]
    pub(crate) fn go_behind_box(&mut self, around: &Surroundings, boxed: &BoxNode, h: i32, v: i32)
        ensures { walk_of self.new ≡ behind_box (frame around.now) (sizes_of boxed.now) h v (walk_of self.old) }
    {
        if around.vertical {
            self.h = around.left_edge;
            self.v = plus(plus(v, boxed.height), boxed.depth);
        } else {
            self.h = plus(h, boxed.width);
            self.v = around.level;
        }
    }

    /// Goes behind a box with an empty list.
    #[tactic(auto, unfolding(crate::specs::SpellingWalk::past_box))]
    pub(crate) fn pass_box(&mut self, around: &Surroundings, boxed: &BoxNode)
        ensures { walk_of self.new ≡ past_box (frame around.now) (sizes_of boxed.now) (walk_of self.old) }
    {
        if around.vertical {
            self.v = plus(plus(self.v, boxed.height), boxed.depth);
        } else {
            self.h = plus(self.h, boxed.width);
        }
    }

    /// The copies of a leader box in a space. Where box or space have no size along the list, there are none.
    #[tactic(auto, unfolding(crate::specs::SpellingWalk::copies_in))]
    pub(crate) fn spread(
        &self,
        around: &Surroundings,
        space: i32,
        how: u8,
        boxed: &BoxNode,
    ) -> Spread
        ensures { counted result ≡ copies_in (frame around.now) space how (sizes_of boxed.now) (walk_of self.now) }
    {
        let (size, offset) = if around.vertical {
            (plus(boxed.height, boxed.depth), minus(self.v, around.level))
        } else {
            (boxed.width, minus(self.h, around.left_edge))
        };
        if size > 0 && space > 0 {
            copies_of(how, offset, space, size)
        } else {
            Spread {
                first: 0,
                count: 0,
                between: 0,
            }
        }
    }

    /// Goes to the place where copies begin.
    #[tactic(auto, unfolding(crate::specs::SpellingWalk::advanced))]
    pub(crate) fn advance_to_copy(&mut self, around: &Surroundings, by: u32)
        ensures { walk_of self.new ≡ advanced (frame around.now) (pos by) (walk_of self.old) }
    {
        if around.vertical {
            self.v = onward(self.v, by);
        } else {
            self.h = onward(self.h, by);
        }
    }

    /// Goes with the reader to the place of a copy of a leader box.
    #[tactic(auto, unfolding(crate::specs::SpellingWalk::at_copy))]
    pub(crate) fn go_to_copy(
        &mut self,
        around: &Surroundings,
        boxed: &BoxNode,
    ) -> Result<(), AllocError>
        ensures { OnOk result (walk_of self.new ≡ at_copy (frame around.now) (sizes_of boxed.now) (walk_of self.old)) }
    {
        if around.vertical {
            let below = plus(self.v, boxed.height);
            self.h = plus(around.left_edge, boxed.shift);
            self.synch_h()?;
            self.v = below;
            self.synch_v()
        } else {
            self.v = plus(around.level, boxed.shift);
            self.synch_v()?;
            self.synch_h()
        }
    }

    /// Goes where the next copy begins, where this one began at a place.
    #[tactic(auto, unfolding(crate::specs::SpellingWalk::behind_copy))]
    pub(crate) fn go_behind_copy(
        &mut self,
        around: &Surroundings,
        boxed: &BoxNode,
        between: u32,
        h: i32,
        v: i32,
    )
        ensures { walk_of self.new ≡ behind_copy (frame around.now) (sizes_of boxed.now) between h v (walk_of self.old) }
    {
        if around.vertical {
            self.h = around.left_edge;
            self.v = onward(plus(v, plus(boxed.height, boxed.depth)), between);
        } else {
            self.h = onward(plus(h, boxed.width), between);
            self.v = around.level;
        }
    }

    /// Goes so far from a place, along the list.
    #[tactic(auto, unfolding(crate::specs::SpellingWalk::along))]
    pub(crate) fn go_along(&mut self, around: &Surroundings, by: i32, h: i32, v: i32)
        ensures { walk_of self.new ≡ along (frame around.now) by h v (walk_of self.old) }
    {
        if around.vertical {
            self.v = plus(v, by);
        } else {
            self.h = plus(h, by);
        }
    }

    /// A glue is set: gives its space. No memory holds so much glue that its sum can't be counted.
    #[tactic(auto, unfolding(crate::specs::SpellingWalk::glued, crate::specs::SpellingWalk::space_of))]
    pub(crate) fn set_glue(&mut self, set: &GlueSet, glue: &Glue) -> Result<i32, AllocError>
        ensures walk { OnOk result (walk_of self.new ≡ glued set.now glue.now (walk_of self.old)) }
        ensures space { IfOk result (λ space. space ≡ space_of set.now glue.now (walk_of self.old)) }
    {
        let Some(sum) = self.sum.checked_add(i64::from(part_of(set, glue))) else {
            return Err(AllocError);
        };
        let grown = growth(set, sum);
        let space = plus(minus(glue.width, self.grown), grown);
        self.sum = sum;
        self.grown = grown;
        Ok(space)
    }

    /// A character; in a vertical list none is set.
    #[tactic(auto, unfolding(crate::specs::SpellingWalk::with_character))]
    #[inline(always)]
    pub(crate) fn set_character(
        &mut self,
        around: &Surroundings,
        font: u8,
        byte: u8,
        width: i32,
    ) -> Result<(), AllocError>
        ensures { OnOk result (walk_of self.new ≡ with_character (frame around.now) font byte width (walk_of self.old)) }
    {
        if around.vertical {
            return Ok(());
        }
        self.synch_h()?;
        self.synch_v()?;
        self.put(Command::Character { font, byte })?;
        self.h = plus(self.h, width);
        self.reader_h = plus(self.reader_h, width);
        Ok(())
    }

    /// Bytes for the program that reads the file.
    #[tactic(auto, unfolding(crate::specs::SpellingWalk::with_special))]
    pub(crate) fn put_special(&mut self, bytes: &[u8]) -> Result<(), AllocError>
        ensures { OnOk result (walk_of self.new ≡ with_special bytes.now (walk_of self.old)) }
    {
        self.synch_h()?;
        self.synch_v()?;
        let bytes = Items::from_slice(self.alloc, bytes)?;
        let bytes = Boxed::new(self.alloc, bytes)?;
        self.put(Command::Special(bytes))
    }

    /// A rule in a horizontal list. The reader moves by its width, and the walk doesn't.
    #[tactic(auto, unfolding(crate::specs::SpellingWalk::rule_across))]
    fn rule_across(
        &mut self,
        around: &Surroundings,
        width: i32,
        height: i32,
        depth: i32,
    ) -> Result<(), AllocError>
        ensures { OnOk result (walk_of self.new ≡ rule_across (frame around.now) width height depth (walk_of self.old)) }
    {
        let thickness = plus(height, depth);
        if thickness > 0 && width > 0 {
            self.synch_h()?;
            self.v = plus(around.level, depth);
            self.synch_v()?;
            self.put(Command::SetRule {
                height: thickness,
                width,
            })?;
            self.v = around.level;
            self.reader_h = plus(self.reader_h, width);
        }
        Ok(())
    }

    /// A rule in a vertical list, whose lower edge is where the walk has come to.
    #[tactic(auto, unfolding(crate::specs::SpellingWalk::rule_down))]
    fn rule_down(&mut self, thickness: i32, width: i32) -> Result<(), AllocError>
        ensures { OnOk result (walk_of self.new ≡ rule_down thickness width (walk_of self.old)) }
    {
        if thickness > 0 && width > 0 {
            self.synch_h()?;
            self.synch_v()?;
            self.put(Command::PutRule {
                height: thickness,
                width,
            })?;
        }
        Ok(())
    }

    /// A rule in a list. What it lacks across the list is that of the box, and what it lacks along the list is 0.
    #[tactic(auto, unfolding(crate::specs::SpellingWalk::with_rule))]
    pub(crate) fn set_rule(
        &mut self,
        around: &Surroundings,
        width: Option<i32>,
        height: Option<i32>,
        depth: Option<i32>,
    ) -> Result<(), AllocError>
        ensures { OnOk result (walk_of self.new ≡ with_rule (frame around.now) width height depth (walk_of self.old)) }
    {
        if around.vertical {
            let thickness = plus(height.unwrap_or(0), depth.unwrap_or(0));
            self.v = plus(self.v, thickness);
            self.rule_down(thickness, width.unwrap_or(around.width))
        } else {
            let width = width.unwrap_or(0);
            self.rule_across(
                around,
                width,
                height.unwrap_or(around.height),
                depth.unwrap_or(around.depth),
            )?;
            self.h = plus(self.h, width);
            Ok(())
        }
    }

    /// A rule that fills a space.
    #[tactic(auto, unfolding(crate::specs::SpellingWalk::with_rule_leaders))]
    pub(crate) fn fill_with_rule(
        &mut self,
        around: &Surroundings,
        space: i32,
        width: Option<i32>,
        height: Option<i32>,
        depth: Option<i32>,
    ) -> Result<(), AllocError>
        ensures { OnOk result (walk_of self.new ≡ with_rule_leaders (frame around.now) space width height depth (walk_of self.old)) }
    {
        if around.vertical {
            self.v = plus(self.v, space);
            self.rule_down(space, width.unwrap_or(around.width))
        } else {
            self.rule_across(
                around,
                space,
                height.unwrap_or(around.height),
                depth.unwrap_or(around.depth),
            )?;
            self.h = plus(self.h, space);
            Ok(())
        }
    }
}

/// Whether the last command, if there is one, is a push.
#[tactic(auto)]
fn is_push(command: Option<&Command>) -> bool
    ensures { result ≡ is_push (option_copied command.entry) }
{
    match command {
        None => false,
        Some(Command::Push) => true,
        Some(Command::Pop) => false,
        Some(Command::Right(_)) => false,
        Some(Command::Down(_)) => false,
        Some(Command::Character { .. }) => false,
        Some(Command::SetRule { .. }) => false,
        Some(Command::PutRule { .. }) => false,
        Some(Command::Special(_)) => false,
    }
}
