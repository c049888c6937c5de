//! Why a text isn't a script.

ghost use Rattle.std.specs.Prelude.{◌≡◌};
ghost use Rattle.redo_script.specs.declared.fault.Reason.TheVariants.{Memory};

use redo_script::ScriptFault;

/// The fault of a text. Lack of memory says nothing about a text, so it isn't one.
#[derive(Debug, Drop)]
pub struct SyntaxFault {
    pub fault: ScriptFault,
    ghost of_text: { fault.why ≡ Memory → ⊥ },
}
