// The calls as lines name them.

// What bytes hold a table.
#[derive(Clone, Copy, Debug, PartialEq, Eq)]
pub enum Form {
    Block,
    NewBlock,
    Kernel,
    Cards,
}

#[derive(Clone, Copy, Debug, PartialEq, Eq)]
pub enum Call {
    Read(Form),
    Write(Form),
    WriteText,
    Renew,
    Revert,
    Table,
    Vouch,
    ReadText,
    InstantOf,
    StampOf,
    ReadJulian,
    WriteJulian,
    Start,
    Tick,
}

impl Call {
    pub(crate) fn named(word: &[u8]) -> Option<Call> {
        match word {
            b"read_block" => Some(Call::Read(Form::Block)),
            b"read_new_block" => Some(Call::Read(Form::NewBlock)),
            b"read_kernel" => Some(Call::Read(Form::Kernel)),
            b"read_cards" => Some(Call::Read(Form::Cards)),
            b"write_text" => Some(Call::WriteText),
            b"write_block" => Some(Call::Write(Form::Block)),
            b"write_new_block" => Some(Call::Write(Form::NewBlock)),
            b"write_kernel" => Some(Call::Write(Form::Kernel)),
            b"write_cards" => Some(Call::Write(Form::Cards)),
            b"renew" => Some(Call::Renew),
            b"revert" => Some(Call::Revert),
            b"table" => Some(Call::Table),
            b"read_text" => Some(Call::ReadText),
            b"instant_of" => Some(Call::InstantOf),
            b"stamp_of" => Some(Call::StampOf),
            b"read_julian" => Some(Call::ReadJulian),
            b"write_julian" => Some(Call::WriteJulian),
            b"start" => Some(Call::Start),
            b"tick" => Some(Call::Tick),
            b"vouch" => Some(Call::Vouch),
            _ => None,
        }
    }
}
