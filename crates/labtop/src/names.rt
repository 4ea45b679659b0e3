// The names of the output files.
ghost use Rattle.std.specs.Prelude.{◌≡◌, ◌++◌, IfOk};
ghost use Rattle.std.specs.String.{string_bytes};
ghost use Rattle.labtop.specs.Names.{delivery_name, match_name, report_name};

use std::alloc::{AllocError, Global};

fn named(alloc: Global, out: &str, ending: &str) -> Result<String, AllocError>
    ensures { IfOk result (λ name. string_bytes name ≡ out.now ++ ending.now) }
{
    let mut name = String::from_str(alloc, out)?;
    name.push_str(ending)?;
    Ok(name)
}

/// The file of the deliveries.
pub(crate) fn name_of_delivery(alloc: Global, out: &str) -> Result<String, AllocError>
    ensures { IfOk result (λ name. string_bytes name ≡ delivery_name out.now) }
{
    named(alloc, out, ".0")
}

/// The file of the report.
pub(crate) fn name_of_report(alloc: Global, out: &str) -> Result<String, AllocError>
    ensures { IfOk result (λ name. string_bytes name ≡ report_name out.now) }
{
    named(alloc, out, ".report")
}

/// The file of a match.
pub(crate) fn name_of_match(alloc: Global, out: &str) -> Result<String, AllocError>
    ensures { IfOk result (λ name. string_bytes name ≡ match_name out.now) }
{
    named(alloc, out, ".match")
}
