//! The use that stands on the crate's page.
use ecat_args::{Args, ArgsFault, SceneCommand};

#[test]
fn words_are_read_as_the_page_shows(rt: HostRuntime) {
    let alloc = rt.alloc();
    let words = ["ecat", "serve", "a.scene", "--packets", "100"];
    let text = match Args::read(alloc, &words) {
        Ok(
            Args::Scene {
                path,
                command: SceneCommand::Serve { port, .. },
            },
        ) => format!(in alloc; "{path} on {port}"),
        Ok(_) => format!(in alloc; "another command"),
        Err(ArgsFault::Line(error)) => format!(in alloc; "{error}"),
        Err(ArgsFault::BadNumber) => format!(in alloc; "a bad number"),
        Err(ArgsFault::NoMemory) => format!(in alloc; "no memory"),
    };
    let text = text.expect(&rt, "memory");
    assert!(rt; text.as_str() == "a.scene on 34980", "{text}");
}
