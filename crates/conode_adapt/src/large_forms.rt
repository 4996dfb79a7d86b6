//! What is said of a data sheet whose compact forms are too large when they are written out.

ghost use Rattle.std.specs.Prelude.{◌≤◌, length};

use co_sheet_changes::{Group, groups_in, lines_in};
use co_sheet_text::SectionKind;
use conode_text::{Value, push_filled};
use std::alloc::{AllocError, Global};

// what the compact forms of sections have
#[derive(Clone, Copy)]
struct Forms {
    // objects with CompactSubObj
    objects: u64,
    // their sub-indices
    sub_indices: u64,
    // PDOs, with CompactPDO
    pdos: u64,
}

impl Forms {
    // with those of one more section
    fn with(self, group: &Group) -> Forms {
        let Forms {
            objects,
            sub_indices,
            pdos,
        } = self;
        match group.kind {
            SectionKind::Object(_) => match group.number(b"CompactSubObj") {
                Some(count @ 1..=254) => Forms {
                    objects: objects.saturating_add(1),
                    sub_indices: sub_indices.saturating_add(count),
                    pdos,
                },
                _ => self,
            },
            SectionKind::DeviceInfo => match group.number(b"CompactPDO") {
                Some(1..) => {
                    let receive = group.number(b"NrOfRXPDO").unwrap_or(0);
                    let transmit = group.number(b"NrOfTXPDO").unwrap_or(0);
                    Forms {
                        objects,
                        sub_indices,
                        pdos: pdos.saturating_add(receive.saturating_add(transmit)),
                    }
                }
                _ => self,
            },
            _ => self,
        }
    }

    fn of(alloc: Global, text: &[u8]) -> Result<Forms, AllocError>
        requires { length text.now ≤ 1048576 }
    {
        let lines = attempt!(lines_in(alloc, text));
        let groups = attempt!(groups_in(alloc, lines.as_slice()));
        let mut forms = Forms {
            objects: 0,
            sub_indices: 0,
            pdos: 0,
        };
        for group in &groups {
            forms = forms.with(group);
        }
        Ok(forms)
    }
}

/// What is said of a text that is a data sheet, and too large with its compact forms written out (CiA
/// 306, compact storage). `Err`: out of memory.
pub(crate) fn said_of_forms(alloc: Global, text: &[u8], name: &str) -> Result<String, AllocError>
    requires { length text.now ≤ 1048576 }
{
    let forms = attempt!(Forms::of(alloc, text));
    let mut said = String::new(alloc);
    attempt!(push_filled(
        &mut said,
        "%: error[TooLarge]: with its compact forms written out the text would have more than \
         1,048,576 bytes: CompactSubObj of % objects has % sub-indices, CompactPDO % PDOs\n  \
         help: lower these counts, where the device has less (CiA 306-1, compact storage)\n",
        &[
            Value::Words(name),
            Value::Number(forms.objects),
            Value::Number(forms.sub_indices),
            Value::Number(forms.pdos),
        ],
    ));
    Ok(said)
}
