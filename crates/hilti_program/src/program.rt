ghost use Rattle.std.specs.Prelude.{◌≡◌, ◌↔◌, ◌<◌, Some, IsTrue, codes, length, slice_get, IfSome, IsSomeAnd};
ghost use Rattle.hilti_base.specs.declared.names.FnId.{FnId as Id};
ghost use Rattle.hilti_parts.specs.declared.parts.Function.{Function as Body};

use crate::{exceptions, names};
use hilti_base::FnId;
use hilti_parts::{Exception, Function, Hook, Parts};
use hilti_typing::laws::exceptions_make_tree;
use std::marker::Model;

/// The parts of a program, of which typing holds, with its entries. Contracts see its parts.
#[derive(Debug, Drop)]
pub struct Program {
    parts: Parts,
    packet: FnId,
    init: Option<FnId>,
    done: Option<FnId>,
}

impl Model for Program {
    ghost use Rattle.std.specs.Coded.{codes};
    ghost use Rattle.hilti_types.specs.contracts.value_type.ValueType as kinds;
    ghost use Rattle.hilti_types.specs.contracts.value_type.Inner as objects;
    ghost use Rattle.hilti_tree.specs.contracts.tree.Tree as trees;
    ghost use Rattle.hilti_parts.specs.contracts.parts.Operand as operands;
    ghost use Rattle.hilti_parts.specs.declared.parts.Parts.{Parts};

    ghost Value = { Parts };

    ghost coded = { Prim.hlevel (
      codes,
      kinds.the_row.coded,
      objects.the_row.coded,
      trees.the_row.coded,
      operands.the_row.coded,
    ) };

    ghost use Rattle.hilti_program.specs.Programs.{IsProgram};

    ghost view = { λ program. program.parts };

    ghost invariant = { λ program. IsProgram program.parts program.packet program.init program.done };
}

impl Program {
    ghost use Rattle.hilti_typing.specs.Exceptions.{IsBelow, ExceptionTree};
    ghost use Rattle.hilti_typing.specs.Programs.{AreTyped, packet_signature, bare_signature};
    ghost use Rattle.hilti_program.specs.Programs.{named, IsEntryOf, IsFunctionOf, IsExceptionOf};
    ghost use Rattle.hilti_program.specs.Programs.{IsHookOf};

    /// The program of typed parts. It takes no memory.
    pub fn new(parts: Parts) -> Program
        requires { AreTyped parts }
        ensures { result ≡ parts }
    {
        let Some(packet) = names::named(&parts, b"Main::packet") else {
            unreachable!()
        };
        let init = names::named(&parts, b"Main::init");
        let done = names::named(&parts, b"Main::done");
        Program {
            parts,
            packet,
            init,
            done,
        }
    }

    /// Its parts, which are typed.
    pub fn parts(&self) -> &Parts
        ensures is { result.now ≡ self.now }
        ensures typed { AreTyped self.now }
        ensures tree { ExceptionTree self.now.exceptions }
    {
        exceptions_make_tree();
        &self.parts
    }

    /// The function that each packet is handed to: `Main::packet`. It takes a time and bytes, and is void.
    pub fn packet(&self) -> FnId
        ensures is { Some result ≡ named self.now (codes "Main::packet") }
        ensures entry { IsEntryOf self.now packet_signature result }
    {
        self.packet
    }

    /// The function that runs first on each virtual thread: `Main::init`, void and without parameters; `None`
    /// exactly where there is none.
    pub fn init(&self) -> Option<FnId>
        ensures is { result ≡ named self.now (codes "Main::init") }
        ensures entry { IfSome result (IsEntryOf self.now bare_signature) }
    {
        self.init
    }

    /// The function that runs behind the last packet: `Main::done`, void and without parameters; `None`
    /// exactly where there is none.
    pub fn done(&self) -> Option<FnId>
        ensures is { result ≡ named self.now (codes "Main::done") }
        ensures entry { IfSome result (IsEntryOf self.now bare_signature) }
    {
        self.done
    }

    /// The first function of a name, as `Module::name`; `None` exactly where there is none.
    pub fn find(&self, name: &[u8]) -> Option<FnId>
        ensures is { result ≡ named self.now name.now }
        ensures within { IfSome result (λ (f : Id). f.n < length self.now.functions) }
    {
        names::named(&self.parts, name)
    }

    /// How many functions there are, hook bodies among them.
    pub fn functions(&self) -> u32
        ensures { result ≡ length self.now.functions }
    {
        self.parts.functions.len() as u32
    }

    /// A function by its number. It is typed.
    pub fn function(&self, f: FnId) -> &Function
        requires { f.n < length self.now.functions }
        ensures { IsFunctionOf self.now f result.now }
    {
        &self.parts.functions.as_slice()[f.n as usize]
    }

    /// The name of a function, as `Module::name`.
    pub fn name(&self, f: FnId) -> &[u8]
        requires { f.n < length self.now.functions }
        ensures { IsSomeAnd (slice_get self.now.functions f.n) (λ (function : Body).
            result.now ≡ function.name) }
    {
        self.function(f).name.bytes()
    }

    /// How many exceptions there are, the seven built-in ones first.
    pub fn exceptions(&self) -> u32
        ensures { result ≡ length self.now.exceptions }
    {
        self.parts.exceptions.len() as u32
    }

    /// An exception by its number. Its parent stands before it.
    pub fn exception(&self, n: u32) -> &Exception
        requires { n < length self.now.exceptions }
        ensures { IsExceptionOf self.now n result.now }
    {
        &self.parts().exceptions.as_slice()[n as usize]
    }

    /// Whether an exception is another or stands below it.
    pub fn is_below(&self, exception: u32, other: u32) -> bool
        requires { exception < length self.now.exceptions }
        ensures { IsTrue result ↔ IsBelow self.now.exceptions exception other }
    {
        exceptions::is_below(self.parts().exceptions.as_slice(), exception, other)
    }

    /// How many hooks there are.
    pub fn hooks(&self) -> u32
        ensures { result ≡ length self.now.hooks }
    {
        self.parts.hooks.len() as u32
    }

    /// A hook by its number. Its bodies are functions that take what it takes, in the order of running.
    pub fn hook(&self, n: u32) -> &Hook
        requires { n < length self.now.hooks }
        ensures { IsHookOf self.now n result.now }
    {
        &self.parts.hooks.as_slice()[n as usize]
    }
}
