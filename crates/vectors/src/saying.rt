// What is printed.
pub(crate) fn print(rt: &HostRuntime, text: &[u8]) {
    let _ = rt.stdout().write_all(text);
}

pub(crate) fn print_byte(rt: &HostRuntime, label: &[u8], byte: u8) {
    print(rt, label);
    let _ = print!(rt; "{byte:02x}");
}

pub(crate) fn print_word(rt: &HostRuntime, label: &[u8], high: u8, low: u8) {
    print(rt, label);
    let _ = print!(rt; "{high:02x}{low:02x}");
}
