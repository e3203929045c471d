//! Bodies of rules by the numbers of their literals.

ghost use Rattle.std.specs.Prelude.{◌≡◌, ◌<◌, ◌^◌, [], IfOk, length};
ghost use Rattle.dl_rows.specs.Counting.{each_once};
ghost use Rattle.dl_rules.specs.Lines.{once_or};

use dl_base::Memory;
use dl_rows::Row;
use std::alloc::{AllocError, Global};
use std::marker::Model;
use std::mem::size_of;

/// The numbers of a body. A fill reads bodies at random, so they are to be small.
#[derive(Drop)]
pub struct BodyNumbers {
    form: Form,
}

const _: () = prove!(size_of::<BodyNumbers>() == 24);

#[derive(Drop)]
enum Form {
    /// No number stands twice.
    Plain(Row),
    /// Some numbers stand twice, and the body stands elsewhere.
    Repeating(Box<Repeats>),
}

/// The numbers of a body in which some stand twice.
#[derive(Drop)]
struct Repeats {
    /// In the order of the body, with repeats.
    body: Row,
    /// Each where it first stands.
    once: Row,
}

impl Model for BodyNumbers {
    ghost use Rattle.std.specs.Prelude.{ℕ, List};
    ghost use Rattle.dl_rules.specs.KeptBody.{body_of, IsKeptBody};

    ghost Value = { List ℕ };

    ghost view = { λ b. body_of b.form };

    ghost invariant = { λ b. IsKeptBody b.form };
}

impl BodyNumbers {
    /// No numbers.
    pub fn none() -> BodyNumbers
        ensures { result ≡ [] }
    {
        BodyNumbers {
            form: Form::Plain(Row::make()),
        }
    }

    /// A body of these numbers, and the same each where it first stands, where some stand twice.
    #[inline(always)]
    pub fn make(alloc: Global, body: Row, once: Option<Row>) -> Result<BodyNumbers, Memory>
        requires once { once_or once body.items ≡ each_once body.items }
        requires short { length body.items < 2 ^ 26 }
        ensures { IfOk result (λ b. b ≡ body.items) }
    {
        let form = match once {
            None => Form::Plain(body),
            Some(once) => Form::Repeating(Box::new(alloc, Repeats { body, once })?),
        };
        Ok(BodyNumbers { form })
    }

    /// The numbers in the order of the body, with repeats.
    pub fn as_slice(&self) -> &[u32]
        ensures { result.now ≡ self.now }
    {
        match &self.form {
            Form::Plain(numbers) => numbers.as_slice(),
            Form::Repeating(lists) => lists.body.as_slice(),
        }
    }

    /// The numbers, each where it first stands.
    pub fn each_once(&self) -> &[u32]
        ensures numbers { result.now ≡ each_once self.now }
        ensures few { length result.now < 2 ^ 26 }
    {
        match &self.form {
            Form::Plain(numbers) => numbers.as_slice(),
            Form::Repeating(lists) => lists.once.as_slice(),
        }
    }
}

/// An equal body.
impl Clone for BodyNumbers {
    ghost is_clone = { λ body copy. copy ≡ body };

    fn clone(&self) -> Result<BodyNumbers, AllocError> {
        let form = match &self.form {
            Form::Plain(numbers) => Form::Plain(numbers.clone()?),
            Form::Repeating(lists) => {
                Form::Repeating(repeats_of(*Box::allocator(lists), lists)?)
            }
        };
        Ok(BodyNumbers { form })
    }
}

/// Equal lists.
fn repeats_of(alloc: Global, lists: &Repeats) -> Result<Box<Repeats>, AllocError>
    ensures body { IfOk result (λ copy. copy.value.body.items ≡ lists.now.body.items) }
    ensures once { IfOk result (λ copy. copy.value.once.items ≡ lists.now.once.items) }
{
    let body = lists.body.clone()?;
    let once = lists.once.clone()?;
    Ok(Box::new(alloc, Repeats { body, once })?)
}
