//! Jobs, the tickets by which they are done, and what comes of them.

ghost use Rattle.std.specs.Prelude.{◌≡◌, ℕ, List, IfOk, IfErr, OnOk};
ghost use Rattle.and_batch.specs.Dones.{done};

use and_model::Text;
use std::alloc::AllocError;
use std::marker::Model;

/// The right to do a job once: it has the job's number, can't be copied, and is made by a batch alone. Contracts see
/// it as the number.
#[derive(Drop, Debug)]
pub struct Ticket {
    number: u32,
}

impl Model for Ticket {
    ghost Value = { ℕ };

    ghost view = { λ t. t.number };
}

impl Ticket {
    /// The ticket of a number. Takes no memory.
    pub(crate) fn new(number: u32) -> Ticket
        ensures { result ≡ number }
    {
        Ticket { number }
    }

    /// The number of the job. Takes no memory.
    pub fn number(&self) -> u32
        ensures { result ≡ self.now }
    {
        self.number
    }

    /// What came of the job. Takes no memory.
    pub fn done(self, text: Text) -> Done
        ensures { result ≡ done self text }
    {
        Done {
            number: self.number,
            text,
        }
    }
}

/// What came of a job: its number and its text.
#[derive(Drop, Debug)]
pub struct Done {
    number: u32,
    text: Text,
}

impl Model for Done {
    ghost use Rattle.and_batch.specs.Dones.{DoneSeen, done};

    ghost Value = { DoneSeen };

    ghost view = { λ d. done d.number d.text };
}

impl Done {
    /// The number of the job. Takes no memory.
    pub(crate) fn number(&self) -> u32
        ensures { result ≡ self.now.number }
    {
        self.number
    }

    /// The text that came of the job. Takes no memory.
    pub(crate) fn into_text(self) -> Text
        ensures { result ≡ self.text }
    {
        self.text
    }
}

/// Numbered jobs. What may come of each is a relation of its number and its text.
pub trait Job: Sync {
    /// The text may come of the job of that number.
    ghost due: { Self → ℕ → List ℕ → Type 0 };

    /// Does the job of the ticket's number. It may wait: a job that does keeps the runtime that it needs in a field of
    /// its own. An error is want of memory.
    fn run(&self, ticket: Ticket) -> Result<Done, AllocError>
        ensures number { IfOk result (λ d. d.number ≡ ticket) }
        ensures due { IfOk result (λ d. due self.now d.number d.text) };
}

/// Numbered jobs that each worker does with tools of its own, which it hands on from one job to the next. One worker
/// leads: it finds whether the jobs are to be done at all, while the others get their tools ready.
pub trait Trade: Sync {
    /// What a worker has at hand.
    type Tools;

    /// Why the jobs are not to be done.
    type Refusal;

    /// The text may come of the job of that number.
    ghost due: { Self → ℕ → List ℕ → Type 0 };

    /// The tools are fit for the next job.
    ghost fit: { Self → Self.Tools → Type 0 };

    /// The jobs are to be done.
    ghost wanted: { Self → Type 0 };

    /// The jobs are not to be done, for this.
    ghost refused: { Self → Self.Refusal → Type 0 };

    /// The tools with which the one who leads begins, or why the jobs are not to be done. An error is want of memory.
    fn lead(&self) -> Result<Result<Self::Tools, Self::Refusal>, AllocError>
        ensures fit { IfOk result (λ led. IfOk led (fit self.now)) }
        ensures wanted { IfOk result (λ led. OnOk led (wanted self.now)) }
        ensures refused { IfOk result (λ led. IfErr led (refused self.now)) };

    /// The tools with which another worker begins. An error is want of memory.
    fn begin(&self) -> Result<Self::Tools, AllocError>
        ensures { IfOk result (fit self.now) };

    /// Does the job of the ticket's number. It may wait, as a [`Job`] may. An error is want of memory.
    fn run(&self, tools: Self::Tools, ticket: Ticket) -> Result<(Done, Self::Tools), AllocError>
        requires { fit self.now tools }
        ensures number { IfOk result (λ r. r.0.number ≡ ticket) }
        ensures due { IfOk result (λ r. due self.now r.0.number r.0.text) }
        ensures fit { IfOk result (λ r. fit self.now r.1) };

    /// Puts the tools away. Takes no memory.
    fn end(&self, tools: Self::Tools);
}

/// Jobs that need no tools, and are always to be done.
#[derive(Drop)]
pub(crate) struct Plain<'a, J> {
    pub(crate) job: &'a J,
}

impl<J: Job> Trade for Plain<'_, J> {
    type Tools = ();

    type Refusal = ();

    ghost due = { λ p number text. J.due p.job.now number text };

    ghost fit = { λ p tools. Unit {0} };

    ghost wanted = { λ p. Unit {0} };

    ghost refused = { λ p why. ⊥ };

    fn lead(&self) -> Result<Result<(), ()>, AllocError> {
        Ok(Ok(()))
    }

    fn begin(&self) -> Result<(), AllocError> {
        Ok(())
    }

    fn run(&self, tools: (), ticket: Ticket) -> Result<(Done, ()), AllocError> {
        let done = self.job.run(ticket)?;
        Ok((done, tools))
    }

    fn end(&self, tools: ()) {}
}
