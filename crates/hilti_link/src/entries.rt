//! The entries of `Main`: `packet`, and where they are there `done` and `init`.
ghost use Rattle.std.specs.Prelude.{◌≡◌, ℕ, List, Option, None, Some, bytes_eq, cond, codes, map};
ghost use Rattle.std.specs.List.{find, list_any};
ghost use Rattle.std.specs.Option.{option_copied};
ghost use Rattle.hilti_module.specs.declared.module.Module.{Module as AModule};
ghost use Rattle.hilti_module.specs.declared.types.Parametric.{out-Parametric};
ghost use Rattle.hilti_resolve.specs.Names.{first_of};
ghost use Rattle.hilti_link.specs.Entries as spec;
ghost use Rattle.hilti_link.specs.InTurn.{Answers};

use hilti_base::{Place, Refusal};
use hilti_module::{
    InnerText, Item, Module, Parameter, Parametric, PlainInner, PlainType, TypeText, Word,
};
use hilti_scope::Modules;

const NO_PACKET: u32 = 22;

const BAD_ENTRY: u32 = 23;

/// Refuses the entries of modules: at the start of the first module where no `Main` declares `packet` as a function, else at
/// the first of `packet`, `done` and `init` that isn't as it is asked.
pub fn refuse_entries(modules: &Modules) -> Result<(), Refusal>
    ensures { Answers result (spec.entries_refusal modules.now) }
{
    match find_main(modules.as_slice()) {
        Some(main) => refuse_main(main.items.as_slice()),
        None => Err(no_packet()),
    }
}

/// Refuses the items of `Main`: where none declares `packet` as a function, else the first entry that isn't as it is asked.
fn refuse_main(items: &[Item]) -> Result<(), Refusal>
    ensures { Answers result (cond (list_any spec.declares_packet items.now)
        (first_of (map spec.entry_refusal items.now)) spec.no_packet) }
{
    if has_packet(items) {
        refuse_items(items)
    } else {
        Err(no_packet())
    }
}

/// The refusal of modules where no `Main` declares `packet` as a function.
fn no_packet() -> Refusal
    ensures { Some result ≡ spec.no_packet }
{
    Refusal::At {
        place: Place {
            file: 0,
            line: 1,
            column: 1,
        },
        code: NO_PACKET,
    }
}

/// The first module of the name `Main`.
fn find_main(modules: &[Module]) -> Option<&Module>
    ensures { option_copied result ≡ find (λ (m : AModule). bytes_eq m.name.bytes (codes "Main"))
        modules.now }
{
    modules
        .iter()
        .find(|module| module.name.bytes.bytes() == b"Main".as_slice())
}

/// Whether a function `packet` is declared.
fn has_packet(items: &[Item]) -> bool
    ensures { result ≡ list_any spec.declares_packet items.now }
{
    items.iter().any(is_packet)
}

/// Whether an item is a function of the name `packet`.
fn is_packet(item: &Item) -> bool
    ensures { result ≡ spec.declares_packet item.now }
{
    match item {
        Item::Function {
            result: _,
            name,
            parameters: _,
            body: _,
        } => name.bytes.bytes() == b"packet".as_slice(),
        _ => false,
    }
}

/// Refuses the first item that is an entry and not as it is asked.
fn refuse_items(items: &[Item]) -> Result<(), Refusal>
    ensures { Answers result (first_of (map spec.entry_refusal items.now)) }
{
    for item in items {
        refuse_entry(item)?;
    }
    Ok(())
}

/// Refuses an entry that isn't as it is asked.
fn refuse_entry(item: &Item) -> Result<(), Refusal>
    ensures { Answers result (spec.entry_refusal item.now) }
{
    match item {
        Item::Type { name, shape: _ } => refuse_name(name, false),
        Item::Global {
            kind: _,
            name,
            value: _,
        } => refuse_name(name, false),
        Item::Hook {
            name,
            parameters: _,
        } => refuse_name(name, false),
        Item::HookBody { .. } => Ok(()),
        Item::Function {
            result: _,
            name,
            parameters: _,
            body: _,
        } => refuse_name(name, is_as_asked(item, name)),
    }
}

/// Whether what `name` names is a function without a result, with parameters as asked.
fn is_as_asked(item: &Item, name: &Word) -> bool
    ensures { result ≡ spec.as_asked item.now name.now }
{
    match item {
        Item::Function {
            result: None,
            name: _,
            parameters,
            body: _,
        } => is_asked(name, parameters.as_slice()),
        _ => false,
    }
}

/// Refuses a name of an entry, unless what it names is as asked.
fn refuse_name(name: &Word, as_asked: bool) -> Result<(), Refusal>
    ensures { Answers result
        (cond (spec.is_entry name.now.bytes) (spec.unless as_asked name.now) None) }
{
    let word = name.bytes.bytes();
    let is_entry = word == b"packet".as_slice()
        || word == b"done".as_slice()
        || word == b"init".as_slice();
    if is_entry && !as_asked {
        return Err(Refusal::At {
            place: name.place,
            code: BAD_ENTRY,
        });
    }
    Ok(())
}

/// Whether the parameters of an entry of this name are as asked: a time and bytes for `packet`, and none for the others.
fn is_asked(name: &Word, parameters: &[Parameter]) -> bool
    ensures { result ≡ spec.asked name.now.bytes parameters.now }
{
    if name.bytes.bytes() == b"packet".as_slice() {
        are_packet(parameters)
    } else {
        parameters.is_empty()
    }
}

/// Whether parameters are a time and bytes.
fn are_packet(parameters: &[Parameter]) -> bool
    ensures { result ≡ spec.are_packet parameters.now }
{
    match parameters {
        [time, bytes] => is_time(&time.kind) && is_bytes(&bytes.kind),
        _ => false,
    }
}

/// Whether a written type is `time`.
fn is_time(kind: &TypeText) -> bool
    ensures { result ≡ spec.is_time kind.now }
{
    matches!(
        kind,
        TypeText::Plain {
            place: _,
            plain: PlainType::Time
        }
    )
}

/// Whether a written type is `bytes`, or a reference to it.
fn is_bytes(kind: &TypeText) -> bool
    ensures { result ≡ spec.is_bytes kind.now }
{
    match kind {
        TypeText::Plain { place: _, plain } => matches!(plain, PlainType::Bytes),
        TypeText::Parametric(parametric) => is_bytes_reference(parametric),
        TypeText::Named(_) => false,
    }
}

/// Whether a written type is a reference to bytes.
fn is_bytes_reference(parametric: &Parametric) -> bool
    ensures { result ≡ spec.is_bytes_ref (out-Parametric parametric.now) }
{
    match parametric {
        Parametric::Ref { place: _, to } => {
            matches!(
                to,
                InnerText::Word {
                    place: _,
                    word: PlainInner::Bytes
                }
            )
        }
        _ => false,
    }
}
