//! Does one thing with a manifest, so that `bench/run` can time it: `toml FILE` reads it by the `toml` crate alone,
//! `read FILE` as a manifest, `set FILE` sets its edition. Prints nothing; the exit status says whether it could be done.
#![tactic(auto)]

use em_base::Edition;
use em_disk::{Files, FolderFiles};
use em_manifest::{read_manifest, set_edition};
use std::alloc::Global;
use std::env;
use std::process::ExitCode;

/// The greatest file that is read.
const MOST: usize = 8_388_608;

/// Whether the call could be done.
fn is_done(alloc: Global, call: &str, bytes: &[u8]) -> bool {
    match call {
        "toml" => match std::str::from_utf8(bytes) {
            Ok(text) => toml::table_from_str(alloc, text).is_ok(),
            Err(_) => false,
        },
        "read" => read_manifest(alloc, bytes).is_ok(),
        "set" => set_edition(alloc, bytes, Edition::E2021).is_ok(),
        _ => false,
    }
}

fn main(rt: HostRuntime) -> ExitCode {
    let mut words = match env::args(&rt) {
        Ok(words) => words.skip(1),
        Err(_) => return ExitCode::from(2),
    };
    let (Some(call), Some(name)) = (words.next(), words.next()) else {
        return ExitCode::from(2);
    };
    let Ok(bytes) = FolderFiles::new(&rt).read(rt.alloc(), name.as_str(), MOST) else {
        return ExitCode::from(3);
    };
    if is_done(rt.alloc(), call.as_str(), bytes.as_slice()) {
        ExitCode::SUCCESS
    } else {
        ExitCode::FAILURE
    }
}
