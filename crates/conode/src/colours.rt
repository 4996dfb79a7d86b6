//! Whether lines are written in colours.

use conode_words::Colours;
use std::env;
use std::io::IsTerminal;

/// `auto`: on a terminal that isn't dumb, unless the environment has a NO_COLOR that isn't empty.
pub(crate) fn has_colours(rt: &HostRuntime, colours: Colours) -> bool {
    match colours {
        Colours::Always => true,
        Colours::Never => false,
        Colours::Auto => rt.stdout().is_terminal() && !is_off(rt),
    }
}

// whether the environment asks for no colours
fn is_off(rt: &HostRuntime) -> bool {
    let no_color = match env::var(rt, "NO_COLOR") {
        Ok(value) => !value.is_empty(),
        Err(_) => false,
    };
    let is_dumb = match env::var(rt, "TERM") {
        Ok(value) => value.as_str() == "dumb",
        Err(_) => false,
    };
    no_color || is_dumb
}
