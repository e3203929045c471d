//! The names of sessions.

ghost use Rattle.std.specs.Prelude.{◌≡◌, ◌++◌, codes, map, string_bytes, IfOk};
ghost use Rattle.dl_words.specs.Names.{output_name};

use dl_base::Memory;
use std::alloc::Global;

/// The name of a session's input, and that of its output.
pub struct Named {
    pub name: String,
    pub output: String,
    pub ghost behind: { string_bytes output ≡ output_name (string_bytes name) },
}

impl Drop for Named {
    fn drop(self) {
        let Named { name: _, output: _ } = self;
    }
}

impl Named {
    /// A name with its output.
    pub fn make(alloc: Global, name: &String) -> Result<Named, Memory>
        ensures { IfOk result (λ named. string_bytes named.name ≡ string_bytes name.now) }
    {
        let mut output = String::from_str(alloc, name.as_str())?;
        output.push_str(".out")?;
        Ok(Named {
            name: String::from_str(alloc, name.as_str())?,
            output,
        })
    }
}

/// The same of each name, in order.
pub fn named_all(alloc: Global, names: &[String]) -> Result<Vec<Named>, Memory>
    ensures { IfOk result (λ all. map (λ named. string_bytes named.name) all.items ≡ map string_bytes names.now) }
{
    let mut all = Vec::with_capacity(alloc, names.len())?;
    for name in names {
        let named = Named::make(alloc, name)?;
        all.push(named)?;
    }
    Ok(all)
}
