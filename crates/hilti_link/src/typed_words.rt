//! Types with words: parameters, locals and the fields of structs.
ghost use Rattle.std.specs.Prelude.{◌≡◌, ◌++◌, ◌||◌, ℕ, List, is_some, IfOk, OnOk};
ghost use Rattle.hilti_scope.specs.FirstPlaces.{place_of};
ghost use Rattle.hilti_link.specs.declared.typed_words.Role.TheVariants as roles;
ghost use Rattle.hilti_link.specs.InTurn.{Answers, behind_all, first_in_turn};
ghost use Rattle.hilti_link.specs.Seeing.{again, type_at};
ghost use Rattle.hilti_link.specs.Views.{ForWords, view_in, Holds};
ghost use Rattle.hilti_link.specs.TypedWords as spec;

use crate::tables::Tables;
use hilti_base::Refusal;
use hilti_module::{Parameter, Word};
use hilti_resolve::read_type;
use hilti_scope::{FirstPlaces, Scope, is_built_in};
use hilti_types::{ValueType, ValueTypes};
use std::alloc::Global;

const DUPLICATE: u32 = 20;

/// What a type with a word is.
#[derive(Clone, Copy, Debug, PartialEq, Eq)]
pub enum Role {
    /// A parameter or a local, which isn't named as a built-in exception.
    Slot,
    /// A field of a struct.
    Member,
}

impl Role {
    /// Whether nothing in this role may have a name.
    fn reserves(self, word: &[u8]) -> bool
        ensures { result ≡ spec.is_reserved self word.now }
    {
        match self {
            Role::Slot => is_built_in(word),
            Role::Member => false,
        }
    }
}

/// Refuses a word that is taken already.
pub fn refuse_again(taken: bool, word: &Word) -> Result<(), Refusal>
    ensures { Answers result (again taken word.now) }
{
    if taken {
        return Err(Refusal::At {
            place: word.place,
            code: DUPLICATE,
        });
    }
    Ok(())
}

/// Whether nothing in this role may have a word, behind those whose words are taken.
fn has_taken(taken: &FirstPlaces, role: Role, word: &[u8]) -> bool
    ensures { result ≡ (is_some (place_of taken.now word.now) || spec.is_reserved role word.now) }
{
    taken.place(word).is_some() || role.reserves(word)
}

/// The type of a typed word, behind those whose words are taken.
pub fn read_word(
    alloc: Global,
    tables: &Tables,
    scope: &Scope<'_>,
    taken: &FirstPlaces,
    role: Role,
    word: &Parameter,
) -> Result<ValueType, Refusal>
    ensures kind { IfOk result (λ kind. kind
        ≡ type_at (view_in tables.now scope.now) word.now.kind) }
    ensures refusal { ForWords taken.now (λ words. Answers result
        (spec.word_refusal (view_in tables.now scope.now) role words word.now)) }
{
    let kind = read_type(alloc, scope, &tables.types, &word.kind)?;
    let is_taken = has_taken(taken, role, word.name.bytes.bytes());
    refuse_again(is_taken, &word.name)?;
    Ok(kind)
}

/// Adds the types of typed words behind others, whose words are taken. They are refused at the first fault: of a type, or
/// at a word that stands again or that nothing in this role may have. After a refusal the types and the words are only
/// dropped.
pub fn read_more_words(
    alloc: Global,
    tables: &Tables,
    scope: &Scope<'_>,
    role: Role,
    taken: &mut FirstPlaces,
    kinds: &mut ValueTypes,
    words: &[Parameter],
) -> Result<(), Refusal>
    ensures kinds { OnOk result (kinds.new
        ≡ kinds.old ++ spec.kinds_of (view_in tables.now scope.now)
        words.now) }
    ensures taken { OnOk result (ForWords taken.old
        (λ before. Holds (behind_all spec.taking_word before words.now) taken.new)) }
    ensures refusal { ForWords taken.old (λ before. Answers result
        (first_in_turn (spec.word_refusal (view_in tables.now scope.now) role)
        spec.taking_word before words.now)) }
{
    for word in words {
        let kind = read_word(alloc, tables, scope, taken, role, word)?;
        kinds.push(kind)?;
        taken.note(word.name.bytes.bytes(), 0)?;
    }
    Ok(())
}

/// The types of typed words, no two of which have one word.
pub fn read_words(
    alloc: Global,
    tables: &Tables,
    scope: &Scope<'_>,
    role: Role,
    words: &[Parameter],
) -> Result<ValueTypes, Refusal>
    ensures kinds { IfOk result (λ kinds. kinds
        ≡ spec.kinds_of (view_in tables.now scope.now) words.now) }
    ensures refusal { Answers result
        (spec.words_refusal (view_in tables.now scope.now) role words.now) }
{
    let mut kinds = ValueTypes::new(alloc);
    let mut taken = FirstPlaces::new(alloc);
    read_more_words(alloc, tables, scope, role, &mut taken, &mut kinds, words)?;
    Ok(kinds)
}

/// The types of parameters, and of locals behind them, no two of which have one name.
pub fn read_slots(
    alloc: Global,
    tables: &Tables,
    scope: &Scope<'_>,
    parameters: &[Parameter],
    locals: &[Parameter],
) -> Result<ValueTypes, Refusal>
    ensures kinds { IfOk result (λ kinds. kinds ≡ spec.kinds_of (view_in tables.now scope.now)
        (parameters.now ++ locals.now)) }
    ensures refusal { Answers result (spec.words_refusal (view_in tables.now scope.now) roles.Slot
        (parameters.now ++ locals.now)) }
{
    let mut kinds = ValueTypes::new(alloc);
    let mut taken = FirstPlaces::new(alloc);
    read_more_words(
        alloc,
        tables,
        scope,
        Role::Slot,
        &mut taken,
        &mut kinds,
        parameters,
    )?;
    read_more_words(
        alloc,
        tables,
        scope,
        Role::Slot,
        &mut taken,
        &mut kinds,
        locals,
    )?;
    Ok(kinds)
}
