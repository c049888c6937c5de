//! The names that loops bind, and their values.

ghost use Rattle.std.specs.Prelude.{◌≡◌, ◌∷◌, IfOk};
ghost use Rattle.redo_step.specs.Value.{value_bound};

use crate::text::Text;
use redo_bytes::Bytes;
use std::alloc::{AllocError, Global};
use std::marker::Model;
use std::sync::Arc;

/// A name, and the value that a loop gives it in one of its turns.
#[derive(Debug, Drop)]
pub(crate) struct Binding {
    pub(crate) name: Bytes,
    pub(crate) value: Bytes,
}

impl Clone for Binding {
    ghost is_clone = { λ binding copy. copy ≡ binding };

    fn clone(&self) -> Result<Binding, AllocError> {
        let name = self.name.clone()?;
        let value = self.value.clone()?;
        Ok(Binding { name, value })
    }
}

/// These bindings, with that of a name to a value in front.
pub(crate) fn with_binding(
    alloc: Global,
    bound: &[Binding],
    name: &Bytes,
    value: &Bytes,
) -> Result<Vec<Binding>, AllocError>
    ensures { IfOk result (λ more. more.items ≡ record { name = name.now; value = value.now } ∷ bound.now) }
{
    let mut more = bound.to_vec(alloc)?;
    let name = name.clone()?;
    let value = value.clone()?;
    more.insert(0, Binding { name, value })?;
    Ok(more)
}

/// What a name stands for: the value that the innermost loop gives it; no bytes if no loop binds it.
pub(crate) fn bound_value<'a>(bound: &'a [Binding], name: &[u8]) -> &'a [u8]
    ensures { result.now ≡ value_bound bound.now name.now }
{
    for binding in bound {
        if binding.name.as_slice() == name {
            return binding.value.as_slice();
        }
    }
    &[]
}

/// The values of a loop's words. Clones share them, so a stop in a turn copies none. In a contract it is the list of
/// the values.
#[derive(Debug, Drop)]
pub(crate) struct Values {
    shared: Arc<Vec<Bytes>>,
}

impl Model for Values {
    ghost use Rattle.std.specs.Prelude.{List, ℕ};
    ghost use Rattle.std.specs.Arc.{arc_value};

    ghost Value = { List (List ℕ) };

    ghost view = { λ v. (arc_value v.shared).items };
}

impl Values {
    /// Makes values of these texts.
    pub(crate) fn of(alloc: Global, texts: &[Text]) -> Result<Values, AllocError>
        ensures { IfOk result (λ values. values ≡ texts.now) }
    {
        let mut values = Vec::with_capacity(alloc, texts.len())?;
        for text in texts {
            values.push(Bytes::from_slice(alloc, text.bytes())?)?;
        }
        let shared = Arc::new(alloc, values)?;
        Ok(Values { shared })
    }

    /// The values, in the order of the words.
    pub(crate) fn as_slice(&self) -> &[Bytes]
        ensures { result.now ≡ self.now }
    {
        &self.shared
    }
}

impl Clone for Values {
    ghost is_clone = { λ values copy. copy ≡ values };

    fn clone(&self) -> Result<Values, AllocError> {
        let shared = self.shared.clone()?;
        Ok(Values { shared })
    }
}
