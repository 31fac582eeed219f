// The names of the operations.
ghost use Rattle.std.specs.Prelude.{◌≡◌, [], get_or};
ghost use Rattle.plain.specs.Record.{names};
ghost use Rattle.cells.specs.Codes.{code_byte};

use cells::Code;

// The name of an operation.
pub fn name_of(code: Code) -> &'static [u8]
    ensures { result.now ≡ get_or names (code_byte code) [] }
{
    match code {
        Code::Put => b"put",
        Code::Add => b"add",
        Code::Need => b"need",
        Code::Move => b"move",
    }
}
