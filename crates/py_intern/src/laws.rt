//! Laws of pools and handles.

ghost use Rattle.py_text.specs.Laws.{AreEqualAsLists, HashAlike};
ghost use Rattle.py_intern.specs.Laws.{AreEqualAsTexts, AreOrderedAsPut, NewIsGreatest, KeepsTexts, StaysDistinct, FindsItsText};

use crate::handle::PyStrInterned;
use crate::keys::CachedPyStrRef;
use std::hash::Hash;

/// Two handles of a pool are equal exactly where their texts are.
pub fn handles_equal_as_texts()
    ensures { AreEqualAsTexts ⟦<PyStrInterned as PartialEq>⟧.eq }
{}

/// Handles are ordered as their places, by `<` and by the order that sorts and maps use.
pub fn handles_ordered_as_put()
    ensures { AreOrderedAsPut ⟦<PyStrInterned as PartialOrd>⟧.partial_cmp
        ⟦<PyStrInterned as Ord>⟧.cmp }
{}

/// The handle of a text that is new in its pool is greater than all handles before it.
pub fn new_handle_is_the_greatest()
    ensures { NewIsGreatest ⟦<PyStrInterned as Ord>⟧.cmp }
{}

/// Handles that are equal by `==` make the same writes to a hasher.
pub fn equal_handles_hash_alike()
    ensures { HashAlike ⟦<PyStrInterned as PartialEq>⟧.eq ⟦<PyStrInterned as Hash>⟧.hash_input }
{}

/// Keys of a map are equal exactly where their code points are.
pub fn keys_equal_as_texts()
    ensures { AreEqualAsLists ⟦<CachedPyStrRef as PartialEq>⟧.eq }
{}

/// Keys that are equal by `==` make the same writes to a hasher.
pub fn equal_keys_hash_alike()
    ensures { HashAlike ⟦<CachedPyStrRef as PartialEq>⟧.eq ⟦<CachedPyStrRef as Hash>⟧.hash_input }
{}

/// A handle's text stays after each later `intern`.
pub fn handles_keep_their_texts()
    ensures { KeepsTexts }
{}

/// A pool has no text twice after `intern`, where it had none before.
pub fn pools_stay_distinct()
    ensures { StaysDistinct }
{}

/// The text of a handle is found at that handle.
pub fn texts_lead_back()
    ensures { FindsItsText }
{}
