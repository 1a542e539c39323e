/// What a command is answered with.
#[derive(Drop)]
pub enum SmtReply {
    /// No line is printed.
    Nothing,
    /// This line is printed, without its newline.
    Printed(Vec<u8>),
    /// No line is printed, and the script ends here.
    Finished,
}
