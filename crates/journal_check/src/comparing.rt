//! Where the printed text of a journal and a text part.

ghost use Rattle.journal_check.specs.Parting.{PartAt};
ghost use Rattle.report.specs.Texts.{text as text_of};

use crate::parting::Parting;
use dcd_base::Failed;
use device_plain::Device;
use report::render;

/// How many bytes of the text are those of the text of the device's journal, and whether these are all bytes of both.
pub(crate) fn compare(device: &Device, text: &[u8]) -> (usize, bool)
    ensures { PartAt text.now (text_of device.now.config device.now.journal) result.0 result.1 }
{
    let mut sink = Parting::new(text);
    let mut journal = device.journal();
    match render(device.control(), &mut journal, &mut sink) {
        Ok(()) => (sink.agreed(), sink.has_agreed()),
        Err(Failed) => (sink.agreed(), false),
    }
}
