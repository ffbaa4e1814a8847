//! What calls mean, for every kind of frame, and what a machine needs to know of it. This crate has definitions and
//! laws alone: it says nothing of instructions, values or heaps.
#![tactic(auto)]
//!
//! **Frames.** A language is two functions that don't recurse, and a test. `act` says what a frame does next: it goes
//! on after some items of the trace (`Go`), it calls one callee and then more (`Call`), or it ends with a result
//! (`Leave`). `resume` says what a caller does with what its last callee ended with: it goes on (`On`), or it ends too
//! (`Out`), as where an exception passes through. `continues` tells whether the next of several callees runs after one
//! that ended so: the bodies of a hook run one after another until one stops it. A function, the run of a hook, timers
//! that an advance fires are all cases of these; nothing below looks into them.
//!
//! **The meaning.** `exec l frame st fuel` runs a frame from a state to its end: `Ended` with a result, the state, the
//! fuel that is left and the trace on the way, or `Spent`, for want of fuel. Each action takes one unit of fuel, and a
//! way back takes none. Under it, `run` recurses on a bound of its own beside the fuel, since a callee runs on fuel
//! that is given and not on a smaller part of it. The bound doesn't matter: no more fuel is left than was given, any
//! bound of at least the fuel gives the same, and so `exec` has the equation that one would write first, `exec l frame
//! st (suc fuel) ≡ follow l (exec l) (l.act frame st) fuel`. By the law `one_meaning` no other function has it.
//!
//! **A stack.** A machine has no recursion: it has a top frame and callers that wait below it, nearest last, as in a
//! vector. `Pending` says of each kind of entry which callees come after the one that runs and how it goes on then.
//! `rest l p below top st fuel` is what is still to come of a whole stack, and each thing that a machine does is one
//! equation of it: the top goes on (`rest_go`), calls (`rest_call`), ends (`rest_leave`) or has no fuel (`rest_spent`).
//! Where a callee ended, its caller runs the next callee (`pop_next`), or the last one, for an entry that only hands on
//! how it ends (`pop_last`), or it goes on (`pop_on`) or ends too (`pop_out`). A machine that unwinds needs no more.
//!
//! **Hooks.** A caller of several callees waits in one entry, or in two: the run of the callees may be an entry of its
//! own above the caller's, which then waits for that run alone. By the law `transparent` what is still to come is the
//! same. So a stack may hold the arguments of a hook beside the number of its next body, as it holds a function's slots
//! beside its place.
//!
//! **Parts.** A trace has plain items, and a cut at each suspension. `parts_of` cuts what is still to come into parts
//! from cut to cut, of which the last closes as the run ends. A segment of a thread is the first part, so the parts
//! before it equal that part and then the parts after it: items are put before the first part (`before_all`), and a
//! cut begins another. By the law `loses_nothing` the parts joined again are the trace.
//!
//! **Stores.** The meaning goes over a store that never loses an object, the machine over a heap that gives objects
//! back. A heap stands for many stores, so a machine's clause speaks of each of them: `Leads` says that from each store
//! that the old heap stands for, the meaning leads to what comes from some store that the new heap stands for. `Steps`
//! says it of one step and what is ahead, `Reaches` of all steps so far, which is the invariant of a loop
//! (`reaches_step`, and `reaches_end` where it ends), and `run_reaches` of whole runs. An action of the top that leads
//! is a step (`go_steps`, `call_steps`) or a suspension (`go_leads`), or the top ends (`leave_leads`) and its caller
//! goes on (`next_leads`, `on_leads`) or ends too (`out_leads`).

pub mod laws;
