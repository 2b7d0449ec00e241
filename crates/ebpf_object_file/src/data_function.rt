//! A function of a file with the read-only data that its slots load.

ghost use Rattle.std.specs.Prelude.{◌≡◌, ◌<◌, ◌≤◌, ◌+◌, ◌/◌, ℕ, length, IfOk, IfErr, OnOk, None, slice_index_or};
ghost use Rattle.ebpf_object_file.specs.First.{NoneBelow};
ghost use Rattle.ebpf_object_file.specs.Section.{sections_in};
ghost use Rattle.ebpf_object_file.specs.Call.{is_call};
ghost use Rattle.ebpf_object_file.specs.File.{AreFunctions};
ghost use Rattle.ebpf_object_file.specs.Reading.{IsReading, IsPut, IsPutFault, ArePut};
ghost use Rattle.ebpf_object_file.specs.DataFunction.{AreLoads, IsRefusal, IsCallFault, IsLoadingFault, IsDataFunction, IsDataFault, IfObject, HasUses};

use crate::call::find_call;
use crate::data_use::{DataUse, Reading};
use crate::fault::FileFault;
use crate::function::{Function, read_function};
use crate::functions::Functions;
use crate::marks::{has_comment, relocated_sections};
use crate::meant::{Meant, find_meant};
use crate::object_fault::ObjectFault;
use crate::outside::{calling, referred, relocations_for};
use crate::relocation::{Relocation, relocation_of};
use std::alloc::{AllocError, Global};

/// A function of a file, and for each of its slots the data whose address its 64-bit immediate is to be, if there is any.
#[derive(Drop)]
pub struct DataFunction<'a> {
    pub function: Function<'a>,
    /// The functions of the file.
    pub functions: Functions<'a>,
    pub uses: Vec<Option<DataUse>>,
}

/// Why there is no function with its data.
#[derive(Clone, Copy)]
pub enum DataFault<'a> {
    /// The file has none, or its relocations are not all of data that can be loaded.
    Object(ObjectFault<'a>),
    /// An allocation failed.
    NoMemory,
}

impl From<AllocError> for DataFault<'_> {
    ghost use Rattle.std.specs.Prelude.{◌≡◌};
    ghost use Rattle.ebpf_object_file.specs.declared.data_function.DataFault.TheVariants.{NoMemory};

    ghost from_gives = { λ _ e. e ≡ NoMemory };

    fn from(_e: AllocError) -> Self {
        DataFault::NoMemory
    }
}

impl<'a> Reading<'a, '_> {
    // Puts the data whose address a relocation has a slot load at that slot.
    fn put(
        self,
        relocation: Relocation,
        uses: &mut Vec<Option<DataUse>>,
    ) -> Result<(), ObjectFault<'a>>
        requires reading { IsReading self }
        requires section { self.function.place.section < sections_in self.functions.file.now }
        requires slots { length uses.old.items ≡ length self.function.code.now / 8 }
        ensures put { OnOk result (IsPut self.entry.functions self.entry.function relocation uses.old.items uses.new.items) }
        ensures refused { IfErr result (λ e. IsPutFault self.entry.functions self.entry.function relocation uses.old.items e) }
    {
        let place = self.function.place;
        let data = match self.data_use(relocation) {
            Ok(data) => data,
            Err(target) => {
                let outside = referred(self.functions, place, relocation, Some(target));
                return Err(ObjectFault::Outside(outside));
            }
        };
        let slot = (relocation.offset - place.from) as usize / 8;
        if uses[slot].is_some() {
            return Err(ObjectFault::File(FileFault::SlotTwice));
        }
        uses[slot] = Some(data);
        Ok(())
    }

    // Puts the data of each relocation of a table that reaches the function at its slot.
    fn put_all(self, table: &[u8], uses: &mut Vec<Option<DataUse>>) -> Result<(), ObjectFault<'a>>
        requires reading { IsReading self }
        requires section { self.function.place.section < sections_in self.functions.file.now }
        requires slots { length uses.old.items ≡ length self.function.code.now / 8 }
        requires empty { (slot : ℕ) → slice_index_or uses.old.items slot None ≡ None }
        ensures put { OnOk result
            (ArePut self.entry.functions.file.now self.entry.functions.symbols.now self.entry.function table.now (length table.now / 16) uses.new.items) }
        ensures refused { IfErr result (λ e. IsRefusal self.entry.functions self.entry.function table.now e) }
    {
        let place = self.function.place;
        for number in 0..table.len() / 16 {
            let relocation = relocation_of(table, number);
            if relocation.reaches(place.from, place.size) {
                match self.put(relocation, uses) {
                    Ok(()) => {}
                    Err(fault) => return Err(fault),
                }
            }
        }
        Ok(())
    }
}

// The first call of another function, as a fault.
fn refuse_calls<'a>(functions: Functions<'a>, function: Function<'a>) -> Result<(), ObjectFault<'a>>
    requires functions { AreFunctions functions.file.now functions }
    requires inside { function.place.from + length function.code.now ≤ length functions.file.now }
    ensures none { OnOk result (NoneBelow (is_call function.entry.code.now) (length function.entry.code.now / 8)) }
    ensures refused { IfErr result (λ e. IsCallFault functions.entry function.entry e) }
{
    match find_call(function.code) {
        None => Ok(()),
        Some(slot) => {
            let outside = calling(functions, function.place, function.code, slot);
            Err(ObjectFault::Outside(outside))
        }
    }
}

// What the slots of a function load, by the relocations of its section.
fn loads<'a>(
    alloc: Global,
    functions: Functions<'a>,
    function: Function<'a>,
) -> Result<Vec<Option<DataUse>>, DataFault<'a>>
    requires functions { AreFunctions functions.file.now functions }
    requires section { function.place.section < sections_in functions.file.now }
    requires inside { function.place.from + length function.code.now ≤ length functions.file.now }
    ensures found { IfOk result (λ uses. AreLoads functions.entry.file.now functions.entry.symbols.now function.entry uses.items) }
    ensures refused { IfErr result (λ e. IfObject e (λ o. IsLoadingFault functions.entry function.entry o)) }
{
    let Functions { file, header, .. } = functions;
    let table = match relocations_for(file, header, function.place) {
        Ok(table) => table,
        Err(fault) => return Err(DataFault::Object(ObjectFault::File(fault))),
    };
    let marks = relocated_sections(alloc, file, header)?;
    let mut uses: Vec<Option<DataUse>> = vec![in alloc; None; function.code.len() / 8]?;
    let reading = Reading {
        functions,
        function,
        marks: &marks,
        comment: has_comment(file, header),
    };
    match reading.put_all(table, &mut uses) {
        Ok(()) => {}
        Err(fault) => return Err(DataFault::Object(fault)),
    }
    match refuse_calls(functions, function) {
        Ok(()) => Ok(uses),
        Err(fault) => Err(DataFault::Object(fault)),
    }
}

/// The function of a name, or the file's only one if the name is empty, with the read-only data that its slots load.
///
/// # Errors
/// Those of [`crate::function::wanted_function`], except that a relocation is no fault if it has a slot load the address of read-only
/// data and is the first for that slot; and want of memory.
pub fn function_with_data<'a>(
    alloc: Global,
    file: &'a [u8],
    name: &[u8],
) -> Result<DataFunction<'a>, DataFault<'a>>
    ensures found { IfOk result (λ d. IsDataFunction file.now name.now d) }
    ensures refused { IfErr result (λ e. IfObject e (λ o. IsDataFault file.now name.now o)) }
    // What its data can be taken from, and what names it.
    ensures data { IfOk result (λ d. HasUses file.now d.uses.items) }
    ensures names { IfOk result (λ d. AreFunctions d.functions.file.now d.functions) }
    ensures file { IfOk result (λ d. d.functions.file.now ≡ file.now) }
{
    let Meant { functions, number } = match find_meant(file, name) {
        Ok(meant) => meant,
        Err(fault) => return Err(DataFault::Object(fault)),
    };
    let function = match read_function(
        functions.file,
        functions.header,
        functions.symbols,
        number,
    ) {
        Ok(function) => function,
        Err(fault) => return Err(DataFault::Object(ObjectFault::File(fault))),
    };
    match loads(alloc, functions, function) {
        Ok(uses) => Ok(DataFunction {
            function,
            functions,
            uses,
        }),
        Err(fault) => Err(fault),
    }
}
