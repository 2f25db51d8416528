//! Boxes on the heap, of which registers and values hold pointers.

ghost use Rattle.std.specs.Prelude.{◌≡◌, ◌<◌, IfOk};
ghost use Rattle.save_groups.specs.InPlace.{with_size};

use nodes::BoxNode;
use std::alloc::{AllocError, Global};
use std::marker::Model;

/// A box behind a pointer, whose sizes can be changed where it stands. Contracts see the box.
#[derive(Debug, Drop)]
pub struct HeapBox {
    inner: Box<BoxNode>,
}

impl Model for HeapBox {
    ghost use Rattle.std.specs.Prelude.{List};
    ghost use Rattle.nodes.specs.declared.boxes.BoxNode.{BoxNode};
    ghost use Rattle.nodes.specs.declared.node.Node.{Node};
    ghost use Rattle.nodes.specs.contracts.node.Node as node;
    ghost use Rattle.std.specs.Coded.{codes};

    ghost Value = { BoxNode (List Node) };

    ghost coded = { Prim.hlevel (codes, node.the_row.coded) };

    ghost view = { λ b. b.inner.value };
}

impl HeapBox {
    /// Puts a box on the heap.
    pub fn new(alloc: Global, node: BoxNode) -> Result<HeapBox, AllocError>
        ensures { IfOk result (λ b. b ≡ node) }
    {
        Ok(HeapBox {
            inner: Box::new(alloc, node)?,
        })
    }

    /// The box.
    pub fn get(&self) -> &BoxNode
        ensures { result.now ≡ self.now }
    {
        &self.inner
    }

    /// Takes the box from the heap.
    pub fn into_inner(self) -> BoxNode
        ensures { result ≡ self }
    {
        let HeapBox { inner } = self;
        Box::into_inner(inner)
    }

    /// Changes the width, the height or the depth, for the part 0, 1 or 2, to a size in sp. It takes no memory.
    pub fn set_size(&mut self, part: u8, size: i32)
        requires { part < 3 }
        ensures { self.new ≡ with_size part size self.old }
    {
        match part {
            0 => self.inner.width = size,
            1 => self.inner.height = size,
            _ => self.inner.depth = size,
        }
    }
}
