//! What a macro's call wants done in the end (The TeXbook, chapter 20; `tex.web` 389 to 401).

ghost use Rattle.std.specs.Prelude.{◌≡◌};

use crate::calling::Parts;
use crate::task::{Act, Arguments, Want};
use macro_args::Refusal;

/// The use is whole: the macro's text is put in front.
pub fn whole(parts: Parts) -> Want
    ensures { result ≡ Want.Act (Act.Text parts.called.body parts.scan.found) }
{
    let Parts { called, scan, .. } = parts;
    Want::Act(Act::Text {
        body: called.body,
        arguments: Arguments::new(scan.arguments()),
    })
}

/// The tokens are no use of the macro.
pub fn refused(parts: Parts, refusal: Refusal) -> Want
    ensures { result ≡ Want.Act (Act.Refuse parts.name refusal) }
{
    Want::Act(Act::Refuse {
        name: parts.name,
        refusal,
    })
}
