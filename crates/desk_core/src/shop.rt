//! The shop: all that the machine holds, and its one step. A request comes from a desk (`desk_store` `src/group.rt`),
//! and its command goes to the crate whose tables it changes, one on stock to `stock_core` `src/stock_command.rt`.
//!
//! Between two requests the catalogue, the bills, the yard and the counter are a sound state of the machine. `accept`
//! begins by keeping what is there. From then on each store knows what it held before the request: a call that stands
//! for a command takes its own changes back where it is refused or memory runs out, so that nothing is pending after
//! that, and after an answer exactly this request's changes are.
ghost use Rattle.std.specs.Prelude.{◌≡◌, ◌+◌, Some, length, IfOk, OnErr, OnOk};
ghost use Rattle.word_core.specs.Acts.{Acts};
ghost use Rattle.desk_core.specs.Books.{AreInOrder};
ghost use Rattle.desk_core.specs.CommandText.{command_text};
ghost use Rattle.desk_core.specs.Machine.{Accepts, AreDrawn, Decides, IsSoundState, answer_of};
ghost use Rattle.desk_core.specs.Machine.{answered, answers_of, checks, effect, entries_in};
ghost use Rattle.desk_core.specs.Machine.{entries_of, ids_of, run, start, told, with_answer};
ghost use Rattle.desk_core.specs.ShopView.{state_before, state_of};

use crate::accepted::Accepted;
use crate::command::{Command, Request};
use crate::kept::{CommandText, Kept};
use crate::key::Key;
use crate::texts::command_text;
use alloc_core::{Allocations, alloc_command};
use bom_core::{Boms, bom_command};
use build_core::{Builds, build_command};
use order_core::{Orders, order_command};
use part_core::{
    Answer, Catalogue, CoreFault, Counter, Limits, Refusal, Seed, Sheet, part_command,
};
use std::alloc::{AllocError, Global};
use stock_core::{Floor, stock_command};
use yard_core::{Yard, YardBooks, yard_command};

mod assemble;

pub use assemble::{AssembleFault, Tables};

/// All that a desk holds: the catalogue, the bills, the yard with the counter and the allocations, the orders, the
/// builds and the answers that are kept.
pub struct Shop {
    catalogue: Catalogue,
    boms: Boms,
    floor: Floor,
    orders: Orders,
    builds: Builds,
    answers: Sheet<Kept>,
}

// It is written out, so that a caller does not prove again how each part is dropped.
impl Drop for Shop {
    fn drop(self) {
        let Shop {
            catalogue: _,
            boms: _,
            floor: _,
            orders: _,
            builds: _,
            answers: _,
        } = self;
    }
}

impl Shop {
    /// A shop with nothing in it. Its rows and the answers that it keeps are found by hashes that begin with the seed;
    /// nothing else depends on it.
    pub fn new(alloc: Global, seed: Seed, limits: Limits) -> Self
        ensures state { state_of result ≡ start limits }
        ensures before { state_before result ≡ start limits }
        ensures sound { IsSoundState (state_of result) }
    {
        Shop {
            catalogue: Catalogue::new(alloc, seed),
            boms: Boms::new(alloc, seed),
            floor: Floor {
                allocations: Allocations::new(alloc, seed),
                stock: YardBooks {
                    yard: Yard::new(alloc, seed),
                    counter: Counter::new(limits),
                    alloc,
                },
            },
            orders: Orders::new(alloc, seed),
            builds: Builds::new(alloc, seed),
            answers: Sheet::new(alloc, seed),
        }
    }

    /// The parts.
    pub fn catalogue(&self) -> &Catalogue
        ensures { result.now ≡ self.now.catalogue }
    {
        &self.catalogue
    }

    /// The bills of all assemblies.
    pub fn boms(&self) -> &Boms
        ensures { result.now ≡ self.now.boms }
    {
        &self.boms
    }

    /// The locations, the items and their history.
    pub fn yard(&self) -> &Yard
        ensures { result.now ≡ self.now.floor.stock.yard }
    {
        &self.floor.stock.yard
    }

    /// What of items is meant for orders and builds.
    pub fn allocations(&self) -> &Allocations
        ensures { result.now ≡ self.now.floor.allocations }
    {
        &self.floor.allocations
    }

    /// The orders and their lines.
    pub fn orders(&self) -> &Orders
        ensures { result.now ≡ self.now.orders }
    {
        &self.orders
    }

    /// The builds.
    pub fn builds(&self) -> &Builds
        ensures { result.now ≡ self.now.builds }
    {
        &self.builds
    }

    /// The counter of row numbers.
    pub fn counter(&self) -> &Counter
        ensures { result.now ≡ self.now.floor.stock.counter }
    {
        &self.floor.stock.counter
    }

    /// The answers that are kept, as a sheet.
    pub fn answers(&self) -> &Sheet<Kept>
        ensures { result.now ≡ self.now.answers }
    {
        &self.answers
    }

    /// Does the command by the machine of the crate that has it.
    #[tactic(auto, using(crate::proofs::Acting::alloc_acts))]
    fn act(&mut self, request: &Request) -> Result<Answer, CoreFault>
        requires nothing_pending { state_before self.old ≡ state_of self.old }
        requires sound { IsSoundState (state_of self.old) }
        ensures acts { let s = state_of self.old in
            let after = effect s request.now.day request.now.command in
            Acts (checks s request.now.day request.now.command)
            (after, answer_of s after) s result (state_of self.new) }
        ensures before { state_before self.new ≡ state_before self.old }
    {
        let alloc = self.floor.stock.alloc;
        match &request.command {
            Command::Part(command) => part_command::act(
                alloc,
                &mut self.catalogue,
                &mut self.floor.stock.counter,
                command,
            ),
            Command::Bom(command) => {
                let open = self.builds.open_parts()?;
                bom_command::act(
                    alloc,
                    &self.catalogue,
                    &mut self.boms,
                    &mut self.floor.stock.counter,
                    open.as_slice(),
                    command,
                )
            }
            Command::Yard(command) => yard_command::act(&mut self.floor.stock, command),
            Command::Stock(command) => stock_command::act(
                &self.catalogue,
                &self.boms,
                &self.floor.allocations,
                &mut self.floor.stock,
                request.day,
                command,
            ),
            Command::Alloc(command) => {
                alloc_command::act(alloc, &mut self.floor.allocations, command)
            }
            Command::Order(command) => order_command::act(
                &self.catalogue,
                &mut self.orders,
                &mut self.floor,
                request.day,
                command,
            ),
            Command::Build(command) => build_command::act(
                &self.catalogue,
                &self.boms,
                &mut self.builds,
                &mut self.floor,
                request.day,
                command,
            ),
        }
    }

    /// Keeps the command's text and its answer under the key.
    fn keep_answer(
        &mut self,
        key: &Key,
        command: &Command,
        answer: &Answer,
    ) -> Result<(), AllocError>
        ensures ok { let text = command_text command.now in
            OnOk result (state_of self.new
            ≡ with_answer (Some key.now) text answer.now (state_of self.old)) }
        ensures before { state_before self.new ≡ state_before self.old }
    {
        let alloc = self.floor.stock.alloc;
        let command = CommandText::new(command_text(alloc, command)?);
        let word = key.copy(alloc)?;
        let answer = answer.copy(alloc)?;
        self.answers.put(Kept {
            word,
            command,
            answer,
        })
    }

    /// Does the request of this key, once: a repeat is answered as before, another command is refused. The command's
    /// text is made only where it is compared or kept, since that of a long receipt costs more than to refuse it.
    fn act_once(&mut self, key: &Key, request: &Request) -> Result<Accepted, CoreFault>
        requires named { request.now.key ≡ Some key.now }
        requires nothing_pending { state_before self.old ≡ state_of self.old }
        requires sound { IsSoundState (state_of self.old) }
        ensures accepts { Accepts (state_of self.old) request.now result (state_of self.new) }
        ensures pending { OnErr result (state_before self.new ≡ state_of self.new) }
        ensures before { state_before self.new ≡ state_before self.old }
        ensures sound { IsSoundState (state_of self.new) }
    {
        if let Some(kept) = self.answers.get(key.text()) {
            let alloc = self.floor.stock.alloc;
            let command = CommandText::new(command_text(alloc, &request.command)?);
            if !kept.command.equals(&command) {
                return Err(CoreFault::Refused(Refusal::KeyTaken));
            }
            return Ok(Accepted::Again(kept.answer.copy(alloc)?));
        }
        let answer = self.act(request)?;
        match self.keep_answer(key, &request.command, &answer) {
            Ok(()) => Ok(Accepted::Anew(answer)),
            Err(_) => {
                self.back();
                Err(CoreFault::Memory)
            }
        }
    }

    /// Makes what is pending final: the state now becomes the state before.
    pub fn keep(&mut self)
        ensures now { state_of self.new ≡ state_of self.old }
        ensures before { state_before self.new ≡ state_of self.old }
    {
        self.catalogue.keep();
        self.boms.keep();
        self.floor.keep();
        self.orders.keep();
        self.builds.keep();
        self.answers.keep();
    }

    /// Takes back what is pending: the state is again the one before.
    pub fn back(&mut self)
        ensures now { state_of self.new ≡ state_before self.old }
        ensures before { state_before self.new ≡ state_before self.old }
    {
        self.catalogue.back();
        self.boms.back();
        self.floor.back();
        self.orders.back();
        self.builds.back();
        self.answers.back();
    }

    /// One step of the machine, of which it is told whether it accepts the request anew. What was pending before is
    /// final, and what is pending after are this request's changes: none after a repeat, nor after a refusal and where
    /// memory runs out, which leave the state as it was.
    pub fn accept(&mut self, request: &Request) -> Result<Accepted, CoreFault>
        requires { IsSoundState (state_of self.old) }
        ensures accepts { Accepts (state_of self.old) request.now result (state_of self.new) }
        ensures pending { OnErr result (state_before self.new ≡ state_of self.new) }
        ensures before { state_before self.new ≡ state_of self.old }
        ensures sound { IsSoundState (state_of self.new) }
    {
        self.keep();
        match &request.key {
            None => Ok(Accepted::Anew(self.act(request)?)),
            Some(key) => self.act_once(key, request),
        }
    }

    /// One step of the machine, as `accept`, for those who needn't know a repeat.
    pub fn decide(&mut self, request: &Request) -> Result<Answer, CoreFault>
        requires { IsSoundState (state_of self.old) }
        ensures decides { Decides (state_of self.old) request.now result (state_of self.new) }
        ensures pending { OnErr result (state_before self.new ≡ state_of self.new) }
        ensures before { state_before self.new ≡ state_of self.old }
        ensures sound { IsSoundState (state_of self.new) }
    {
        Ok(self.accept(request)?.answer())
    }

    /// A run of the machine over the requests that did not run out of memory. The list of outcomes
    /// is made first: where there is no memory for it, no request is run.
    pub fn run_list(
        &mut self,
        alloc: Global,
        requests: &[Request],
    ) -> Result<Vec<Result<Answer, CoreFault>>, AllocError>
        requires { IsSoundState (state_of self.old) }
        ensures ran { IfOk result (λ outcomes.
            run (state_of self.old) (answered requests.now outcomes.items)
            ≡ (state_of self.new, told outcomes.items)) }
        ensures count { IfOk result (λ outcomes. length outcomes.items ≡ length requests.now) }
        ensures drawn { IfOk result (λ outcomes.
            let answers = answers_of (state_of self.old) (answered requests.now outcomes.items) in
            AreDrawn (state_of self.old).counter.next (ids_of answers)
            (state_of self.new).counter.next) }
        ensures written { IfOk result (λ outcomes.
            let answers = answers_of (state_of self.old) (answered requests.now outcomes.items) in
            entries_in (state_of self.new) ≡ entries_in (state_of self.old) + entries_of answers) }
        ensures in_order { AreInOrder (state_of self.new) }
        ensures none_run { OnErr result (state_of self.new ≡ state_of self.old) }
        ensures sound { IsSoundState (state_of self.new) }
    {
        let mut outcomes = Vec::with_capacity(alloc, requests.len())?;
        for request in requests {
            let outcome = self.decide(request);
            outcomes.push_reserved(outcome);
        }
        Ok(outcomes)
    }
}
