//! Devices that fail, and a listing.
ghost use Rattle.std.specs.Prelude.{◌≡◌};
ghost use Rattle.arc_code.specs.CountedDevices.{failures_of};

use arc_ast::tree::{BinaryOperator, Kind, UnaryOperator};
use arc_code::code::{Code, Instruction, IoFault, Piece};
use arc_code::counted::{Counted, Failed};
use arc_code::device::Output;
use arc_code::instr::{Instr, Op};
use arc_code::lines::list;
use arc_spec::class::Gives;
use std::alloc::{AllocError, Global};
use std::io;
use std::io::{ErrorKind, Read, Write};

/// Interrupted so many times, and then a reader of `A`.
#[derive(Drop)]
struct Interrupted {
    times: u32,
}

impl Read for Interrupted {
    fn read(&mut self, bytes: &mut [u8]) -> io::Result<usize> {
        if self.times > 0 {
            self.times -= 1;
            return Err(io::Error::from(ErrorKind::Interrupted));
        }
        if bytes.is_empty() {
            return Ok(0);
        }
        bytes[0] = b'A';
        Ok(1)
    }
}

/// Takes so many bytes, one at a time, then takes none, and can't be flushed.
#[derive(Drop)]
struct Narrow {
    taken: Vec<u8>,
    room: usize,
}

impl Write for Narrow {
    fn write(&mut self, bytes: &[u8]) -> io::Result<usize> {
        if self.taken.len() >= self.room || bytes.is_empty() {
            return Ok(0);
        }
        self.taken.extend_from_slice(&bytes[..1])?;
        Ok(1)
    }

    fn flush(&mut self) -> io::Result<()> {
        Err(io::Error::from(ErrorKind::BrokenPipe))
    }
}

/// What a reader that is interrupted so many times gives, how often it has failed then, and how often it is still
/// interrupted.
fn got_after(times: u32) -> (Result<Option<u8>, Failed>, u64, u32) {
    let mut reader = Counted::new(Interrupted { times });
    let got = reader.get();
    (got, reader.failures(), reader.get_ref().times)
}

#[test]
fn interruptions_are_retried(rt: HostRuntime) {
    let is_got = got_after(99) == (Ok(Some(b'A')), 0, 0);
    assert!(rt; is_got && got_after(100) == (Err(Failed), 1, 0));
}

/// Each instruction.
static INSTRS: [Instruction; 44] = [
    Instr::Plain(Op::Num(-42)),
    Instr::Plain(Op::Bin(BinaryOperator::Divide, Kind::Int)),
    Instr::Plain(Op::Un(UnaryOperator::Complement, Kind::Long)),
    Instr::Plain(Op::Narrow(Kind::Bool)),
    Instr::Plain(Op::Pop),
    Instr::Plain(Op::Get(2)),
    Instr::Plain(Op::Set(3)),
    Instr::PrintText(Piece { from: 10, len: 6 }),
    Instr::Plain(Op::PrintNum),
    Instr::Plain(Op::PrintByte),
    Instr::Plain(Op::GetChar),
    Instr::Jump(12),
    Instr::JumpZero(7),
    Instr::Call(0, Gives::Number),
    Instr::Send(3, 1, 2, Gives::Object),
    Instr::SendSuper(1, 2, 0, 3, Gives::Number),
    Instr::SendTo(11, 12, 13, Gives::Object),
    Instr::SendToSuper(14, 15, 16, 17, Gives::Number),
    Instr::StoreStrong(2),
    Instr::Empty(3),
    Instr::DropAll,
    Instr::Return,
    Instr::EndStep,
    Instr::Plain(Op::Declare),
    Instr::Plain(Op::Nil),
    Instr::Plain(Op::ReadSelf),
    Instr::Plain(Op::ReadRef(4)),
    Instr::Plain(Op::Hold),
    Instr::Plain(Op::Forget),
    Instr::Plain(Op::Alloc),
    Instr::Plain(Op::GetField(5, 6)),
    Instr::Plain(Op::SetField(7, 8)),
    Instr::Plain(Op::NotSame),
    Instr::Plain(Op::IsObject),
    Instr::Plain(Op::Again),
    Instr::Plain(Op::GetGlobal(9)),
    Instr::Plain(Op::SetGlobal(10)),
    Instr::Plain(Op::ReadGlobal(11)),
    Instr::Plain(Op::ReadField(12, 13)),
    Instr::StoreGlobal(14),
    Instr::StoreField(15, 16),
    Instr::Plain(Op::Finds(17)),
    Instr::Settle,
    Instr::Give,
];

/// Code with each instruction.
fn each_instruction(alloc: Global) -> Result<Box<Code>, AllocError> {
    let code = Code {
        instrs: Vec::from_slice(alloc, &INSTRS)?,
        texts: Vec::new(alloc),
        end_step: 0,
        room: 0,
        names: 0,
        places: 0,
        globals: Vec::new(alloc),
        strong_globals: 0,
        classes: Vec::new(alloc),
    };
    Ok(Box::new(alloc, code)?)
}

/// The listing of that code.
const LISTING: &str = "0 Num -42\n1 Bin 3 2\n2 Un 2 3\n3 Narrow 1\n4 Pop\n5 Get 2\n6 Set 3\n\
    7 PrintText 10 6\n8 PrintNum\n9 PrintByte\n10 GetChar\n11 Jump 12\n12 JumpZero 7\n13 Call 0 0\n\
    14 Send 3 1 2 1\n15 SendSuper 1 2 0 3 0\n16 SendTo 11 12 13 1\n17 SendToSuper 14 15 16 17 0\n\
    18 StoreStrong 2\n19 Empty 3\n20 DropAll\n21 Return\n22 EndStep\n23 Declare\n24 Nil\n\
    25 ReadSelf\n26 ReadRef 4\n27 Hold\n28 Forget\n29 Alloc\n30 GetField 5 6\n31 SetField 7 8\n\
    32 NotSame\n33 IsObject\n34 Again\n35 GetGlobal 9\n36 SetGlobal 10\n37 ReadGlobal 11\n38 ReadField 12 13\n\
    39 StoreGlobal 14\n40 StoreField 15 16\n\
    41 Finds 17\n42 Settle\n43 Give\n";

/// What a call of a writer answers, and how often the writer has failed then.
type Answered<E> = (Result<(), E>, u64);

/// What the writer answers where that code is listed, and where it is flushed after that.
fn listed_on<W: Output>(
    alloc: Global,
    writer: &mut Counted<W>,
) -> Result<(Answered<IoFault>, Answered<Failed>), AllocError>
    requires { failures_of writer.old ≡ 0 }
{
    let code = each_instruction(alloc)?;
    let listed = list(&code, writer);
    let failures = writer.failures();
    let flushed = writer.flush();
    Ok(((listed, failures), (flushed, writer.failures())))
}

#[test]
fn code_is_listed(rt: HostRuntime) {
    let mut writer = Counted::new(Vec::new(rt.alloc()));
    let answered = listed_on(rt.alloc(), &mut writer);
    let is_listed = writer.get_ref().as_slice() == LISTING.as_bytes();
    assert!(rt; answered == Ok(((Ok(()), 0), (Ok(()), 0))) && is_listed);
}

/// A write of no byte is a failure, and so is a flush that fails.
#[test]
fn a_failing_writer_ends_a_listing(rt: HostRuntime) {
    let mut writer = Counted::new(Narrow {
        taken: Vec::new(rt.alloc()),
        room: 12,
    });
    let answered = listed_on(rt.alloc(), &mut writer);
    let is_begun = writer.get_ref().taken.as_slice() == b"0 Num -42\n1 ".as_slice();
    assert!(rt; answered == Ok(((Err(IoFault::Write), 1), (Err(Failed), 2))) && is_begun);
}

#[test]
fn faults_are_reported(rt: HostRuntime) {
    let are_numbered = IoFault::Read.number() == 91 && IoFault::Write.number() == 92;
    let are_named = IoFault::Read.name() == "Read" && IoFault::Write.name() == "Write";
    assert!(rt; are_numbered && are_named);
}
