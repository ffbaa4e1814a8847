//! The shapes of declared types.
ghost use Rattle.std.specs.Prelude.{◌≡◌, ◌+◌, ℕ, List, IfOk, map, min};
ghost use Rattle.hilti_types.specs.Depths.{greatest};
ghost use Rattle.hilti_resolve.specs.Names.{first_unknown as unknown_in};
ghost use Rattle.hilti_resolve.specs.Values.{value_of};
ghost use Rattle.hilti_scope.specs.Meanings.{is_among};
ghost use Rattle.hilti_scope.specs.Scopes.{means};
ghost use Rattle.hilti_link.specs.declared.typed_words.Role.TheVariants as roles;
ghost use Rattle.hilti_link.specs.InTurn.{Answers};
ghost use Rattle.hilti_link.specs.Seeing.{again, depth_at};
ghost use Rattle.hilti_link.specs.Shapes as spec;
ghost use Rattle.hilti_link.specs.TypedWords.{word_refusal, words_refusal};
ghost use Rattle.hilti_link.specs.Views.{ForWords, view_in};

use crate::tables::Tables;
use crate::typed_words::{Role, read_word, refuse_again};
use hilti_base::{Blob, Names, NoMemory, Place, Refusal};
use hilti_module::{Field, Form, Name, Parameter, Word};
use hilti_resolve::{
    FieldForm, TypeFault, capped_depth, field_form, first_unknown, read_type,
    value_of as read_value,
};
use hilti_scope::{FirstPlaces, Meaning, Scope};
use hilti_types::{Member, Members, OverlayField, OverlayFields, ValueType};
use std::alloc::Global;

const UNKNOWN: u32 = 21;

const BAD_TYPE: u32 = 25;

const TYPE_DEPTH: u32 = 26;

/// The greatest depth of a type.
const DEPTH: u32 = 16;

/// How deep a struct nests, which is 1 more than its deepest field, and at most 18.
fn struct_depth(tables: &Tables, scope: &Scope<'_>, fields: &[Parameter]) -> u32
    ensures { result ≡ 1 + min 17
        (greatest (map (λ field. depth_at (view_in tables.now scope.now) field.kind) fields.now)) }
{
    let mut deepest = 0;
    for field in fields {
        let field_depth = capped_depth(scope, &tables.types, &field.kind);
        deepest = deepest.max(field_depth);
    }
    1 + deepest
}

/// Refuses a struct that nests deeper than 16, at its word.
pub fn refuse_depth(
    tables: &Tables,
    scope: &Scope<'_>,
    place: Place,
    fields: &[Parameter],
) -> Result<(), Refusal>
    ensures { Answers result (spec.deep_struct (view_in tables.now scope.now) place fields.now) }
{
    if struct_depth(tables, scope, fields) > DEPTH {
        return Err(Refusal::At {
            place,
            code: TYPE_DEPTH,
        });
    }
    Ok(())
}

/// A member of a struct, behind those whose words are taken.
fn read_member(
    alloc: Global,
    tables: &Tables,
    scope: &Scope<'_>,
    taken: &FirstPlaces,
    field: &Parameter,
) -> Result<Member, Refusal>
    ensures member { IfOk result (λ member. member
        ≡ spec.member_of (view_in tables.now scope.now) field.now) }
    ensures refusal { ForWords taken.now (λ words. Answers result
        (word_refusal (view_in tables.now scope.now) roles.Member words field.now)) }
{
    let kind = read_word(alloc, tables, scope, taken, Role::Member, field)?;
    let name = field.name.bytes.copy()?;
    Ok(Member { name, kind })
}

/// The members of a struct.
pub fn read_members(
    alloc: Global,
    tables: &Tables,
    scope: &Scope<'_>,
    fields: &[Parameter],
) -> Result<Members, Refusal>
    ensures members { IfOk result (λ members. members
        ≡ map (spec.member_of (view_in tables.now scope.now))
        fields.now) }
    ensures refusal { Answers result
        (words_refusal (view_in tables.now scope.now) roles.Member fields.now) }
{
    let mut members = Members::new(alloc);
    let mut taken = FirstPlaces::new(alloc);
    for field in fields {
        let member = read_member(alloc, tables, scope, &taken, field)?;
        members.push(member)?;
        taken.note(field.name.bytes.bytes(), 0)?;
    }
    Ok(members)
}

/// Refuses a word that is among those that are taken.
fn refuse_taken(taken: &FirstPlaces, word: &Word) -> Result<(), Refusal>
    ensures { ForWords taken.now
        (λ words. Answers result (again (is_among words word.now.bytes) word.now)) }
{
    let is_taken = taken.place(word.bytes.bytes()).is_some();
    refuse_again(is_taken, word)
}

/// The words of an enum, no two the same.
pub fn read_constants(alloc: Global, words: &[Word]) -> Result<Names, Refusal>
    ensures words { IfOk result (λ names. names ≡ map (λ word. word.bytes) words.now) }
    ensures refusal { Answers result (spec.constants_refusal words.now) }
{
    let mut names = Names::new(alloc);
    let mut taken = FirstPlaces::new(alloc);
    for word in words {
        refuse_taken(&taken, word)?;
        let name = word.bytes.copy()?;
        names.push(name)?;
        taken.note(word.bytes.bytes(), 0)?;
    }
    Ok(names)
}

/// Refuses a field whose type breaks the rules of types or isn't its form's. Where a name in its type means nothing,
/// neither is looked at.
fn refuse_form(
    alloc: Global,
    tables: &Tables,
    scope: &Scope<'_>,
    field: &Field,
) -> Result<(), Refusal>
    ensures { Answers result (spec.form_refusal (unknown_in (means scope.now) field.now.kind)
        (value_of tables.now.types (means scope.now) field.now.kind) field.now.form
        field.now.name.place) }
{
    if first_unknown(scope, &field.kind).is_some() {
        return Ok(());
    }
    match read_value(alloc, scope, &tables.types, &field.kind) {
        Ok(kind) => refuse_no_form(field_form(&kind, &field.form), field.name.place),
        Err(TypeFault::Broken { place: _ }) => Err(bad_field(field.name.place)),
        Err(TypeFault::NoMemory) => Err(Refusal::NoMemory),
    }
}

/// Refuses a field without a form.
fn refuse_no_form(form: Option<FieldForm>, place: Place) -> Result<(), Refusal>
    ensures { Answers result (spec.no_form form place) }
{
    match form {
        Some(_) => Ok(()),
        None => Err(bad_field(place)),
    }
}

/// The refusal of a field that breaks the rules.
fn bad_field(place: Place) -> Refusal
    ensures { result ≡ Refusal.At place 25 }
{
    Refusal::At {
        place,
        code: BAD_TYPE,
    }
}

/// A field of an overlay, as the table has it.
fn overlay_field(alloc: Global, field: &Field, kind: ValueType) -> Result<OverlayField, NoMemory>
    ensures { IfOk result (λ made. made ≡ spec.overlay_field_by field.now kind) }
{
    let form = field_form(&kind, &field.form).unwrap_or(FieldForm {
        size: 0,
        bits: None,
    });
    Ok(OverlayField {
        name: field.name.bytes.copy()?,
        kind,
        offset: field.offset.value,
        form: form_word(alloc, &field.form)?,
        size: form.size,
        bits: form.bits,
    })
}

/// The word of a form.
fn form_word(alloc: Global, form: &Form) -> Result<Blob, NoMemory>
    ensures { IfOk result (λ word. word ≡ spec.form_word form.now) }
{
    match form {
        Form::Bytes {
            place: _,
            length: _,
        } => Blob::of(alloc, b"Bytes"),
        Form::Word { word, bits: _ } => word.bytes.copy(),
    }
}

/// A field of an overlay, behind those whose words are taken.
fn read_field(
    alloc: Global,
    tables: &Tables,
    scope: &Scope<'_>,
    taken: &FirstPlaces,
    field: &Field,
) -> Result<OverlayField, Refusal>
    ensures field { IfOk result (λ made. made
        ≡ spec.overlay_field_of (view_in tables.now scope.now) field.now) }
    ensures refusal { ForWords taken.now (λ words. Answers result
        (spec.field_refusal (view_in tables.now scope.now) words field.now)) }
{
    refuse_taken(taken, &field.name)?;
    refuse_form(alloc, tables, scope, field)?;
    let kind = read_type(alloc, scope, &tables.types, &field.kind)?;
    Ok(overlay_field(alloc, field, kind)?)
}

/// The fields of an overlay, no two of one name.
pub fn read_fields(
    alloc: Global,
    tables: &Tables,
    scope: &Scope<'_>,
    fields: &[Field],
) -> Result<OverlayFields, Refusal>
    ensures fields { IfOk result (λ made. made
        ≡ map (spec.overlay_field_of (view_in tables.now scope.now))
        fields.now) }
    ensures refusal { Answers result
        (spec.fields_refusal (view_in tables.now scope.now) fields.now) }
{
    let mut made = OverlayFields::new(alloc);
    let mut taken = FirstPlaces::new(alloc);
    for field in fields {
        let next = read_field(alloc, tables, scope, &taken, field)?;
        made.push(next)?;
        taken.note(field.name.bytes.bytes(), 0)?;
    }
    Ok(made)
}

/// The number of an exception's parent, which is declared in front of it; without one it is `Exception`.
pub fn read_parent(scope: &Scope<'_>, parent: &Option<Name>) -> Result<u32, Refusal>
    ensures parent { IfOk result (λ n. n ≡ spec.parent_by (means scope.now) parent.now) }
    ensures refusal { Answers result (spec.parent_refusal_by (means scope.now) parent.now) }
{
    match parent {
        Some(name) => exception_number(scope.meaning(name), name.first.place),
        None => Ok(0),
    }
}

/// The number of an exception by what its name means.
fn exception_number(meaning: Meaning, place: Place) -> Result<u32, Refusal>
    ensures number { IfOk result (λ n. n ≡ spec.exception_number meaning) }
    ensures refusal { Answers result (spec.parent_meant meaning place) }
{
    match meaning {
        Meaning::Exception { n } => Ok(n),
        Meaning::Nothing => Err(Refusal::At {
            place,
            code: UNKNOWN,
        }),
        Meaning::Local { slot: _ }
        | Meaning::Struct { n: _ }
        | Meaning::Enum { n: _ }
        | Meaning::Overlay { n: _ }
        | Meaning::Global { n: _ }
        | Meaning::Function { n: _ }
        | Meaning::Hook { n: _ } => Err(Refusal::At {
            place,
            code: BAD_TYPE,
        }),
    }
}
