//! The configuration of streams with a clock, and what is read of their files.

ghost use Rattle.std.specs.Prelude.{IfOk};
ghost use Rattle.ctf_types.specs.AllowedConfig.{IsConfig};

use ctf_types::Config;
use std::alloc::{AllocError, Global};
use std::test::Fail;
use trace_stack::{ReadTrace, read_trace};
use tsdl_writer::write_metadata;
use worked_fixtures::{CLOCKED, configuration, granted};

pub fn clocked(alloc: Global) -> Result<Config, Fail>
    ensures { IfOk result (λ c. IsConfig c) }
{
    configuration(alloc, CLOCKED)
}

fn metadata_text(alloc: Global) -> Result<String, Fail> {
    let config = clocked(alloc)?;
    granted(write_metadata(alloc, &config))
}

/// What is read of these files, each with its name.
pub fn read_back(alloc: Global, files: &[(&str, &[u8])]) -> Result<ReadTrace, Fail> {
    let metadata = metadata_text(alloc)?;
    let files = owned(alloc, files)?;
    Ok(read_trace(alloc, metadata.as_bytes(), &files)?)
}

fn owned(alloc: Global, files: &[(&str, &[u8])]) -> Result<Vec<(String, Vec<u8>)>, AllocError> {
    let mut all = Vec::new(alloc);
    for (name, bytes) in files {
        let bytes = Vec::from_slice(alloc, *bytes)?;
        all.push((String::from_str(alloc, *name)?, bytes))?;
    }
    Ok(all)
}
