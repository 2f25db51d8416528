//! Glue specifications and their orders of infinity: `tex.web`, part 10, sections 149 to 151; The
//! TeXbook, chapter 12.

ghost use Rattle.std.specs.Prelude.{◌≡◌, ◌↔◌, IsTrue};

/// How infinite a stretch or a shrink is: finite, or `fil`, `fill`, `filll`, each infinitely greater
/// than the one before.
#[derive(Clone, Copy, Debug, PartialEq, Eq, PartialOrd, Ord)]
pub enum Order {
    Normal,
    Fil,
    Fill,
    Filll,
}

impl Order {
    ghost use Rattle.scaled.specs.Glue.{same_order};

    /// Whether two orders are one.
    pub fn is_same(self, other: Order) -> bool
        ensures fact { IsTrue result ↔ (self ≡ other) }
        ensures test { result ≡ same_order self other }
    {
        match (self, other) {
            (Order::Normal, Order::Normal) => true,
            (Order::Fil, Order::Fil) => true,
            (Order::Fill, Order::Fill) => true,
            (Order::Filll, Order::Filll) => true,
            _ => false,
        }
    }
}

/// A glue specification: a natural width in sp, and by how much it may stretch and shrink. A stretch
/// or a shrink of order `Normal` is in sp, and one of another order in 65536ths of its unit.
#[derive(Clone, Copy, Debug, PartialEq, Eq)]
pub struct Glue {
    pub width: i32,
    pub stretch: i32,
    pub stretch_order: Order,
    pub shrink: i32,
    pub shrink_order: Order,
}

impl Glue {
    ghost use Rattle.scaled.specs.Glue.{same_glue};

    /// Whether two specifications agree in all five parts. Zero stretches of two orders differ.
    pub fn is_same(self, other: Glue) -> bool
        ensures fact { IsTrue result ↔ (self ≡ other) }
        ensures test { result ≡ same_glue self other }
    {
        self.width == other.width
            && self.stretch == other.stretch
            && self.stretch_order.is_same(other.stretch_order)
            && self.shrink == other.shrink
            && self.shrink_order.is_same(other.shrink_order)
    }
}
