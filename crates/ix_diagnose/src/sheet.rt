/// What is wrong with a datasheet, and what to write in its place; `name` is the key that is told.
pub(crate) fn sheet_sentence(kind: &str, name: &str) -> &'static str {
    match kind {
        "Utf8" => "the file is no text in UTF-8: write it in UTF-8",
        "Toml" => {
            "the file is no TOML: write a line `KEY = VALUE` for each key, once, texts in quotes, and the headers `[delay]` and `[window]`"
        }
        "Key" => {
            "no such key stands at the top: write `core`, `period`, `lifetime` and the tables `[delay]` and `[window]` alone"
        }
        "Core" => {
            "no core is named: write `core = \"three\"`, `core = \"four\"`, `core = \"five\"`, `core = \"three_f\"` or `core = \"five_f\"`"
        }
        "Number" if name == "period" => {
            "there is no period, or it is not a whole number from 1 to 1000000: write one, as `period = 1000`"
        }
        "Number" if name == "lifetime" => {
            "no such way to count lifetimes: write `lifetime = \"unit\"` or `lifetime = \"width\"`"
        }
        "Number" => {
            "this value is of the wrong form: write a whole number from 0 to 1000000 under `[delay]`, and two, as `[2, 4]`, under `[window]`"
        }
        "Kind" => {
            "no operation has this name: write a kind of operation under `[delay]`, and one of those on the core, as `WrRD`, under `[window]`"
        }
        "Window" => {
            "this window is empty or goes past that of the core: write a first and a last stage within the core's own, the first not behind the last"
        }
        _ => "the datasheet is refused: write it as docs/FORMATS.md says",
    }
}
