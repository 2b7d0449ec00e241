//! Why bytes are no object file that a program can be taken from.

ghost use Rattle.std.specs.Prelude.{◌≡◌};
ghost use Rattle.ebpf_object_file.specs.Sentences.{file_sentence};

use std::fmt;

/// A fault of a file. The order in which they are looked for is that of the list; what a fault means is defined in specs/.
#[derive(Clone, Copy)]
pub enum FileFault {
    NoHeader,
    NotElf,
    NotLittle64,
    NotRelocatable,
    NotBpf,
    HeaderSize,
    SectionsOutside,
    NoNames,
    ContentsOutside,
    NoSymbols,
    SymbolsTwice,
    NoStrings,
    /// The name that a caller asks for has more than 255 bytes. This is looked for before the file.
    LongName,
    NoFunctions,
    NotCode,
    /// The relocations for the function's section have addends (`SHT_RELA`).
    Addends,
    RelocationsTwice,
    /// Two relocations are for one slot of a function that is taken with its data.
    SlotTwice,
    /// A caller asks for the lines of a section that isn't in the file.
    NoSection,
    LongSectionName,
    /// The header of `.BTF` isn't as it must be, or its strings reach beyond its end.
    BadStrings,
    /// The header of `.BTF.ext` isn't as it must be, or the lines aren't parts of whole records.
    BadLines,
}

impl FileFault {
    // What is wrong.
    fn sentence(self) -> &'static str
        ensures { result.now ≡ file_sentence self }
    {
        match self {
            FileFault::NoHeader => "the file has fewer than the 64 bytes of an ELF header",
            FileFault::NotElf => "the file is not an ELF file",
            FileFault::NotLittle64 => {
                "the file is not a 64-bit little-endian ELF file: compile with -target bpfel"
            }
            FileFault::NotRelocatable => "the file is not relocatable: compile with -c",
            FileFault::NotBpf => {
                "the file is for a machine other than eBPF: compile with -target bpfel"
            }
            FileFault::HeaderSize => "the file's section headers do not have 64 bytes each",
            FileFault::SectionsOutside => "the section headers reach beyond the end of the file",
            FileFault::NoNames => "the section of section names is not in the file",
            FileFault::ContentsOutside => "a section reaches beyond the end of the file",
            FileFault::NoSymbols => "the file has no symbol table",
            FileFault::SymbolsTwice => "the file has more than one symbol table",
            FileFault::NoStrings => "the section of symbol names is not in the file",
            FileFault::LongName => "the function's name has more than 255 bytes",
            FileFault::NoFunctions => "the file has no function",
            FileFault::NotCode => "the function's bytes are not whole slots of its section",
            FileFault::Addends => "the relocations of the function's section have addends",
            FileFault::RelocationsTwice => {
                "the function's section has more than one section of relocations"
            }
            FileFault::SlotTwice => "two relocations are for one slot",
            FileFault::NoSection => "the file has no section of that number",
            FileFault::LongSectionName => {
                "the name of the function's section has no end, or more than 255 bytes"
            }
            FileFault::BadStrings => "the strings of .BTF cannot be read",
            FileFault::BadLines => "the lines of .BTF.ext cannot be read",
        }
    }
}

impl fmt::Display for FileFault {
    ghost use Rattle.std.specs.Prelude.{Some};
    ghost use Rattle.ebpf_object_file.specs.Sentences.{file_sentence};

    ghost output = { λ fault. Some (file_sentence fault) };

    fn fmt<W: fmt::Write>(&self, f: &mut fmt::Formatter<W>) -> fmt::Result {
        f.write_str(self.sentence())
    }
}
