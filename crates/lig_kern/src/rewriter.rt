//! A word with a cursor, which the font's program rewrites (`tex.web`, sections 1034 to 1040).
ghost use Rattle.std.specs.Prelude.{◌≡◌, ◌++◌, ◌∷◌, [], OnOk, IfOk, IfErr};
ghost use Rattle.lig_kern.specs.Elements.{kern_node, nodes_of};
ghost use Rattle.lig_kern.specs.Rewriting.{first_word, with_fed, closed, passed, with_ligature, list_of};
ghost use Rattle.lig_kern.specs.Settling.{Rewrites, Meets, Settles, before};
ghost use Rattle.lig_kern.specs.WordOf.{word_of};
ghost use Rattle.tokens.specs.declared.stop.Stop.TheVariants.{OutOfMemory};

use crate::element::{Element, make_ligature, put_node};
use crate::meeting::action_between;
use nodes::{KernKind, Node};
use std::alloc::{AllocError, Global};
use std::collections::VecDeque;
use std::mem::replace;
use tfm::{Action, Metrics};
use tokens::{Budget, Stop};

/// A word with a cursor.
#[derive(Drop)]
pub(crate) struct Rewriter {
    pub(crate) font: u8,
    /// What the cursor has left behind.
    pub(crate) set: Vec<Node>,
    /// What stands left of the cursor.
    pub(crate) here: Element,
    /// How many places the cursor is still to pass over.
    pub(crate) over: u8,
    /// What stands right of the cursor.
    pub(crate) ahead: VecDeque<Element>,
}

impl Rewriter {
    /// A word of which nothing was fed.
    pub(crate) fn new(alloc: Global, font: u8, left: bool) -> Rewriter
        ensures { word_of result ≡ first_word font left }
    {
        Rewriter {
            font,
            set: Vec::new(alloc),
            here: if left {
                Element::Boundary
            } else {
                Element::Start
            },
            over: 0,
            ahead: VecDeque::new(alloc),
        }
    }

    /// The cursor passes what stands right of it.
    fn pass(&mut self, alloc: Global, metrics: &Metrics, next: Element) -> Result<(), AllocError>
        ensures { OnOk result (word_of self.new ≡ passed metrics.now next [] (word_of self.old)) }
    {
        let left = replace(&mut self.here, next);
        put_node(alloc, metrics, self.font, left, &mut self.set)
    }

    /// The cursor passes what stands right of it, and leaves a kern in front of that.
    fn pass_with_kern(
        &mut self,
        alloc: Global,
        metrics: &Metrics,
        next: Element,
        width: i32,
    ) -> Result<(), AllocError>
        ensures { OnOk result
            (word_of self.new ≡ passed metrics.now next (kern_node width ∷ []) (word_of self.old)) }
    {
        let kern = Node::Kern {
            width,
            how: KernKind::Font,
        };
        self.pass(alloc, metrics, next)?;
        self.set.push(kern)?;
        Ok(())
    }

    /// Puts a ligature at the cursor, whose right neighbour is taken out of the word.
    fn rewrite(
        &mut self,
        alloc: Global,
        mut next: Element,
        byte: u8,
        keep_left: bool,
        keep_right: bool,
        skip: u8,
    ) -> Result<(), AllocError>
        ensures { OnOk result
            (word_of self.new ≡ with_ligature byte keep_left keep_right skip next (word_of self.old)) }
    {
        let at_left = self.here.is_boundary();
        let at_right = next.is_boundary();
        let ligature = make_ligature(
            alloc,
            byte,
            keep_left,
            keep_right,
            &mut self.here,
            &mut next,
        )?;
        self.over = skip;
        if keep_right {
            self.ahead.push_front(next.yield_left(at_left))?;
        }
        if keep_left {
            let here = replace(&mut self.here, Element::Start);
            self.here = here.yield_right(at_right);
            self.ahead.push_front(ligature)?;
        } else {
            self.here = ligature;
        }
        Ok(())
    }

    /// Takes a step and puts a ligature at the cursor, whose right neighbour is taken out of the word. Where no step is
    /// left, the neighbour is put back.
    fn rewrite_for_step(
        &mut self,
        alloc: Global,
        next: Element,
        byte: u8,
        keep_left: bool,
        keep_right: bool,
        skip: u8,
        budget: &mut Budget,
    ) -> Result<(), Stop>
        ensures { Rewrites byte keep_left keep_right skip next (word_of self.old) budget.old result (word_of self.new) budget.new }
    {
        if !budget.spend() {
            self.ahead.push_front(next)?;
            return Err(Stop::Spent);
        }
        self.rewrite(alloc, next, byte, keep_left, keep_right, skip)?;
        Ok(())
    }

    /// What happens where the cursor meets what stands right of it, which is taken out of the word.
    fn meet(
        &mut self,
        alloc: Global,
        metrics: &Metrics,
        next: Element,
        budget: &mut Budget,
    ) -> Result<(), Stop>
        ensures { Meets metrics.now next (word_of self.old) budget.old result (word_of self.new) budget.new }
    {
        if self.over > 0 {
            self.over -= 1;
            self.pass(alloc, metrics, next)?;
            return Ok(());
        }
        match action_between(metrics, &self.here, &next) {
            Action::Nothing => {
                self.pass(alloc, metrics, next)?;
                Ok(())
            }
            Action::Kern(width) => {
                self.pass_with_kern(alloc, metrics, next, width)?;
                Ok(())
            }
            Action::Lig {
                byte,
                keep_left,
                keep_right,
                skip,
            } => self.rewrite_for_step(alloc, next, byte, keep_left, keep_right, skip, budget),
        }
    }

    /// Goes on until the cursor is at the end, or a ligature is due for which no step is left.
    pub(crate) fn settle(
        &mut self,
        alloc: Global,
        metrics: &Metrics,
        budget: &mut Budget,
    ) -> Result<(), Stop>
        ensures { Settles metrics.now (word_of self.old) budget.old result (word_of self.new) budget.new }
    {
        while let Some(next) = self.ahead.pop_front() {
            if let Err(stop) = self.meet(alloc, metrics, next, budget) {
                return Err(stop);
            }
        }
        Ok(())
    }

    /// The cursor meets an element, and goes on from there.
    fn go_on(
        &mut self,
        alloc: Global,
        metrics: &Metrics,
        next: Element,
        budget: &mut Budget,
    ) -> Result<(), Stop>
        ensures { Settles metrics.now (before next (word_of self.old)) budget.old result (word_of self.new) budget.new }
    {
        self.meet(alloc, metrics, next, budget)?;
        self.settle(alloc, metrics, budget)
    }

    /// Adds a character at the end of the word, and goes on.
    pub(crate) fn feed(
        &mut self,
        alloc: Global,
        metrics: &Metrics,
        byte: u8,
        budget: &mut Budget,
    ) -> Result<(), Stop>
        ensures { Settles metrics.now (with_fed byte (word_of self.old)) budget.old result (word_of self.new) budget.new }
    {
        let character = Element::Character(byte);
        if self.ahead.is_empty() {
            return self.go_on(alloc, metrics, character, budget);
        }
        self.ahead.push_back(character)?;
        self.settle(alloc, metrics, budget)
    }

    /// Adds the boundary at the end of the word, where there is one.
    pub(crate) fn end(&mut self, right: bool) -> Result<(), AllocError>
        ensures { OnOk result (word_of self.new ≡ closed right (word_of self.old)) }
    {
        if right {
            self.ahead.push_back(Element::Boundary)?;
        }
        Ok(())
    }

    /// The list of a word at whose end the cursor is.
    pub(crate) fn into_list(self, alloc: Global, metrics: &Metrics) -> Result<Vec<Node>, AllocError>
        ensures { IfOk result (λ list. list.items ≡ list_of metrics.now (word_of self)) }
    {
        let Rewriter {
            font,
            mut set,
            here,
            ..
        } = self;
        put_node(alloc, metrics, font, here, &mut set)?;
        Ok(set)
    }
}
