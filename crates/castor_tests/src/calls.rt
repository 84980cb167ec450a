//! The calls of castor_cli below `castor`, each once.

ghost use Rattle.std.specs.Prelude.{◌≡◌, ◌<◌};

use crate::images::SEVEN_AND_NINE;
use crate::world::owned;
use castor_base::Steps;
use castor_cli::{Command, answer_line, command_in, reply_text};
use castor_image::{Image, open_image};
use castor_reader::Reply;
use castor_val::{Cell, Faults, Memory};
use std::alloc::Global;
use std::marker::{Brand, Model};
use std::process::Abort;
use std::sync::ledger::{Blank, Ledger};
use std::test::Fail;

// The reply of an image to a line.
fn line(alloc: Global, image: &Image<'_>, line: &[u8]) -> Result<Vec<u8>, Memory> {
    line_by::<Brand>(alloc, image, line, Blank::new(1))
}

fn line_by<L: Ledger>(
    alloc: Global,
    image: &Image<'_>,
    line: &[u8],
    blank: Blank,
) -> Result<Vec<u8>, Memory>
    requires name { blank.name ≡ L.name }
    requires parts { blank.parts ≡ L.parts }
    requires some { 0 < blank.parts }
{
    let mut steps = Steps::<L>::new(blank);
    answer_line(alloc, image, line, &mut steps)
}

fn lines_of(rt: &impl Abort, alloc: Global, image: &Image<'_>) -> Result<(), Fail> {
    assert_eq!(rt;
        line(alloc, image, b"")?.as_slice(),
        b"rows 2\nx\n7\n9\n".as_slice()
    );
    assert_eq!(rt;
        line(alloc, image, b"7")?.as_slice(),
        b"bad parameters\n".as_slice()
    );
    Ok(())
}

fn replies_of(rt: &impl Abort, alloc: Global, image: &Image<'_>) -> Result<(), Fail> {
    let mut row = Vec::new(alloc);
    row.push(Cell::Int(-1))?;
    let mut rows = Vec::new(alloc);
    rows.push(row)?;
    let text = reply_text(alloc, image.head(), &Reply::Rows(rows))?;
    assert_eq!(rt; text.as_slice(), b"rows 1\nx\n-1\n".as_slice());
    let faults = Faults {
        division: true,
        overflow: false,
        norows: true,
    };
    let text = reply_text(alloc, image.head(), &Reply::Faults(faults))?;
    assert_eq!(rt; text.as_slice(), b"fault division,norows\n".as_slice());
    Ok(())
}

#[test]
fn an_opened_image_has_lines_and_replies(rt: HostRuntime) -> Result<(), Fail> {
    match open_image(rt.alloc(), &SEVEN_AND_NINE) {
        Ok(image) => {
            lines_of(&rt, rt.alloc(), &image)?;
            replies_of(&rt, rt.alloc(), &image)
        }
        Err(_) => panic!(rt; "no image"),
    }
}

#[test]
fn words_are_a_form_of_a_command(rt: HostRuntime) -> Result<(), Fail> {
    let words = owned(rt.alloc(), &["ask"])?;
    assert_eq!(rt; command_in(&words), None);
    let words = owned(rt.alloc(), &["ask", "q1.image"])?;
    assert_eq!(rt; command_in(&words), Some(Command::Ask));
    Ok(())
}
