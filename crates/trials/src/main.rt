// Runs the trials of data/trials.list, then shows the examples, the list data/odd.list with its states, and so data/network.list, without what is
// withheld and whole. What must be written, in stdout, was written by the Rust (oracle/regenerate).
#![tactic(auto)]

use std::fs::File;
use streams::answers::Form;

// Only what is written is looked at, by who runs it: how a list ended is not told.
fn run(rt: &HostRuntime, path: &str, form: Form) {
    match File::open(rt, path) {
        Ok(file) => {
            let _ = lists::replay(rt.alloc(), file, rt.stdout(), form);
        }
        Err(_) => {
            let _ = println!(rt; "{path} can't be opened");
        }
    }
}

fn main(rt: HostRuntime) {
    let plain = Form {
        shown: false,
        secrets: false,
        with_state: false,
    };
    let shown = Form {
        shown: true,
        ..plain
    };
    let with_states = Form {
        with_state: true,
        ..shown
    };
    run(&rt, "trials.list", plain);
    run(&rt, "examples.list", shown);
    run(&rt, "odd.list", with_states);
    run(&rt, "network.list", with_states);
    run(
        &rt,
        "network.list",
        Form {
            secrets: true,
            ..with_states
        },
    )
}
