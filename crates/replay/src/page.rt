// What is written, gathered so that an answer goes out by one write. (std's `BufWriter` has its buffer on the heap.)
use std::io;
use std::io::Write;
use text::buffer::Buffer;

// A line and a mark in front of it, or any answer.
const SIZE: usize = 4096;

#[derive(Drop)]
pub struct Page<W> {
    out: W,
    text: Buffer<SIZE>,
}

impl<W: Write> Page<W> {
    pub fn new(out: W) -> Page<W> {
        Page {
            out,
            text: Buffer::new(),
        }
    }

    fn write_page(&mut self) -> io::Result<()> {
        self.out.write_all(self.text.as_slice())?;
        self.text.clear();
        Ok(())
    }
}

impl<W: Write> Write for Page<W> {
    // A full page is written first.
    fn write(&mut self, bytes: &[u8]) -> io::Result<usize> {
        if SIZE - self.text.len() < bytes.len() {
            self.write_page()?;
        }
        let count = bytes.len().min(SIZE - self.text.len());
        self.text.extend_from_slice(&bytes[..count]);
        Ok(count)
    }

    fn flush(&mut self) -> io::Result<()> {
        self.write_page()?;
        self.out.flush()
    }
}
