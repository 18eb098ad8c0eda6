// Reads a clear report of the frames.
use crate::faults::ReadFault;
use crate::filling::fill;
use crate::reader::Reader;
use frame_reading::whole_frames::find;
use frames::frames::Frames;
use pieces::found::Seen;

impl Reader for Frames {
    fn read(&self, given: &[u8], text: &mut [u32]) -> Result<Seen, ReadFault> {
        fill(find(given), text)
    }
}
