ghost use Rattle.std.proofs.Common.{rules};

// Cases of panels. Those of the interface run on every panel alike.
#[cfg(test)]
mod tests {
    use crate::tests::cell_of;
    use cells::cell::Cell;
    use panels::grid::GridPanel;
    use panels::panel::Panel;
    use panels::picture::Picture;
    use panels::row::RowPanel;
    use panels::stack::Stack;
    use std::process::Abort;
    use std::test::Fail;

    fn shows<N: Panel>(rt: &impl Abort, panel: &N, j: usize, codes: &[u8]) -> Result<(), Fail> {
        match panel.read(j) {
            Some(cell) => {
                assert_eq!(rt; cell.codes(), codes);
                Ok(())
            },
            None => Err(Fail::new("no such column")),
        }
    }

    fn begins_blank<N: Panel>(rt: &impl Abort, panel: &N, columns: usize) -> Result<(), Fail> {
        assert_eq!(rt; panel.columns(), columns);
        assert_eq!(rt; panel.cursor(), 0);
        for j in 0..columns {
            shows(rt, panel, j, &[])?;
        }
        assert!(rt; panel.read(columns).is_none());
        Ok(())
    }

    #[test]
    fn widths(rt: HostRuntime) -> Result<(), Fail> {
        // The columns that are asked for, and those that the panel has.
        let cases = [
            (0, 1),
            (1, 1),
            (2, 2),
            (40, 40),
            (80, 80),
            (81, 80),
            (255, 80),
            (usize::MAX, 80),
        ];
        for (asked, columns) in cases {
            begins_blank(&rt, &GridPanel::new(asked), columns)?;
            begins_blank(&rt, &RowPanel::new(asked), columns)?;
        }
        Ok(())
    }

    // Three columns: a cell of three codes, a lone mark, and two marks without a base in the last.
    fn keeps_cells<N: Panel>(rt: &impl Abort, panel: &mut N) -> Result<(), Fail> {
        let three = cell_of(&[0xA1, 0xD9, 0xE8])?;
        assert!(rt; panel.show(0, three));
        assert!(rt; panel.show(1, cell_of(&[0xD4])?));
        assert!(rt; panel.show(2, cell_of(&[0xD4, 0xE8])?));
        shows(rt, panel, 0, &[0xA1, 0xD9, 0xE8])?;
        shows(rt, panel, 1, &[0xD4])?;
        shows(rt, panel, 2, &[0xD4, 0xE8])?;
        // There is no column 3, and nothing changes.
        assert!(rt; !panel.show(3, three));
        assert!(rt; !panel.show(80, three));
        assert!(rt; !panel.show(usize::MAX, three));
        assert!(rt; panel.read(3).is_none());
        assert!(rt; panel.read(usize::MAX).is_none());
        shows(rt, panel, 2, &[0xD4, 0xE8])?;
        // A blank over a cell, and another cell over that.
        assert!(rt; panel.show(0, Cell::blank()));
        shows(rt, panel, 0, &[])?;
        shows(rt, panel, 1, &[0xD4])?;
        assert!(rt; panel.show(0, cell_of(b"A")?));
        shows(rt, panel, 0, b"A")?;
        shows(rt, panel, 1, &[0xD4])?;
        assert_eq!(rt; panel.columns(), 3);
        assert_eq!(rt; panel.cursor(), 0);
        Ok(())
    }

    // Three columns: the cursor stands at 0 to 3.
    fn keeps_the_cursor<N: Panel>(rt: &impl Abort, panel: &mut N) {
        assert!(rt; panel.place_cursor(3));
        assert_eq!(rt; panel.cursor(), 3);
        assert!(rt; !panel.place_cursor(4));
        assert!(rt; !panel.place_cursor(usize::MAX));
        assert_eq!(rt; panel.cursor(), 3);
        assert!(rt; panel.place_cursor(1));
        assert_eq!(rt; panel.cursor(), 1);
        assert!(rt; panel.place_cursor(0));
        assert_eq!(rt; panel.cursor(), 0);
        assert_eq!(rt; panel.columns(), 3);
    }

    fn keeps_all<N: Panel>(rt: &impl Abort, panel: &mut N) -> Result<(), Fail> {
        keeps_cells(rt, panel)?;
        keeps_the_cursor(rt, panel);
        Ok(())
    }

    #[test]
    fn three_columns(rt: HostRuntime) -> Result<(), Fail> {
        keeps_all(&rt, &mut GridPanel::new(3))?;
        keeps_all(&rt, &mut RowPanel::new(3))
    }

    // The last column of the widest panel, and the one behind it.
    fn reaches_the_edge<N: Panel>(rt: &impl Abort, panel: &mut N) -> Result<(), Fail> {
        let cell = cell_of(&[0xA1, 0xD4, 0xE8])?;
        assert!(rt; panel.show(79, cell));
        assert!(rt; !panel.show(80, cell));
        shows(rt, panel, 78, &[])?;
        shows(rt, panel, 79, &[0xA1, 0xD4, 0xE8])?;
        assert!(rt; panel.place_cursor(80));
        assert!(rt; !panel.place_cursor(81));
        assert_eq!(rt; panel.cursor(), 80);
        Ok(())
    }

    #[test]
    fn edges(rt: HostRuntime) -> Result<(), Fail> {
        reaches_the_edge(&rt, &mut GridPanel::new(80))?;
        reaches_the_edge(&rt, &mut RowPanel::new(80))
    }

    // A panel that cannot be let go by itself: whoever has it takes it apart.
    struct Hung<N: Panel> {
        panel: N,
    }

    impl<N: Panel> Panel for Hung<N> {
        ghost screen = { λ p. N.Panel.screen p.panel };

        ghost lawful = { Prim.search rules };

        fn columns(&self) -> usize {
            self.panel.columns()
        }

        fn cursor(&self) -> usize {
            self.panel.cursor()
        }

        fn read(&self, j: usize) -> Option<Cell> {
            self.panel.read(j)
        }

        fn show(&mut self, j: usize, cell: Cell) -> bool {
            self.panel.show(j, cell)
        }

        fn place_cursor(&mut self, place: usize) -> bool {
            self.panel.place_cursor(place)
        }
    }

    #[test]
    fn linear(rt: HostRuntime) -> Result<(), Fail> {
        let mut hung = Hung {
            panel: RowPanel::new(3),
        };
        let kept = keeps_all(&rt, &mut hung);
        let Hung { panel } = hung;
        kept?;
        shows(&rt, &panel, 0, b"A")
    }

    #[test]
    fn stacks(rt: HostRuntime) -> Result<(), Fail> {
        // The codes of a cell, and what the rows top, above, base and below have of it.
        let cases: [(&[u8], [u8; 4]); 10] = [
            (&[], [0x00, 0x00, 0x00, 0x00]),
            (&[0x41], [0x00, 0x00, 0x41, 0x00]),
            (&[0xE0], [0x00, 0x00, 0xE0, 0x00]),
            (&[0xA1, 0xD9, 0xE8], [0xE8, 0x00, 0xA1, 0xD9]),
            (&[0xA1, 0xD4, 0xE8], [0xE8, 0xD4, 0xA1, 0x00]),
            (&[0xA1, 0xE8], [0xE8, 0x00, 0xA1, 0x00]),
            (&[0xD4, 0xE8], [0xE8, 0xD4, 0x00, 0x00]),
            (&[0xD4], [0x00, 0xD4, 0x00, 0x00]),
            (&[0xE8], [0xE8, 0x00, 0x00, 0x00]),
            (&[0xD8], [0x00, 0x00, 0x00, 0xD8]),
        ];
        for (codes, rows) in cases {
            let cell = cell_of(codes)?;
            let stack = stack_of(rows);
            assert_eq!(rt; Stack::of(&cell), stack);
            assert!(rt; stack.cell() == Some(cell));
        }
        Ok(())
    }

    fn stack_of(rows: [u8; 4]) -> Stack {
        let [top, above, base, below] = rows;
        Stack {
            top,
            above,
            base,
            below,
        }
    }

    #[test]
    fn no_cell_has_these_rows(rt: HostRuntime) {
        let cases = [
            // A code in the row of another level.
            [0x00, 0x00, 0xD4, 0x00],
            [0xA1, 0x00, 0x00, 0x00],
            [0x00, 0xE8, 0xA1, 0x00],
            // Marks above and below at once.
            [0x00, 0xD4, 0xA1, 0xD8],
            // A mark that does not compose with the base.
            [0xE8, 0x00, 0x41, 0x00],
            // No text code.
            [0x00, 0x00, 0x07, 0x00],
            [0x00, 0x00, 0xDB, 0x00],
        ];
        for rows in cases {
            assert!(rt; stack_of(rows).cell().is_none());
        }
    }

    #[test]
    fn four_rows(rt: HostRuntime) -> Result<(), Fail> {
        let mut panel = RowPanel::new(2);
        assert!(rt; panel.show(1, cell_of(&[0xA1, 0xD9, 0xE8])?));
        assert_eq!(rt; panel.stack(0), Some(stack_of([0x00, 0x00, 0x00, 0x00])));
        assert_eq!(rt; panel.stack(1), Some(stack_of([0xE8, 0x00, 0xA1, 0xD9])));
        assert_eq!(rt; panel.stack(2), None);
        Ok(())
    }

    #[test]
    fn pictures(rt: HostRuntime) -> Result<(), Fail> {
        let heap = rt.alloc();
        let mut panel = RowPanel::new(4);
        let picture = Picture { panel: &panel };
        assert_eq!(rt; format!(in heap; "{picture}")?.as_str(), ">.|.|.|.|");
        assert!(rt; panel.show(0, cell_of(&[0xA1, 0xD9, 0xE8])?));
        assert!(rt; panel.show(2, cell_of(&[0xD4])?));
        assert!(rt; panel.place_cursor(2));
        let picture = Picture { panel: &panel };
        assert_eq!(rt; format!(in heap; "{picture}")?.as_str(), "|A1D9E8|.>D4|.|");
        assert!(rt; panel.place_cursor(4));
        let picture = Picture { panel: &panel };
        assert_eq!(rt; format!(in heap; "{picture}")?.as_str(), "|A1D9E8|.|D4|.>");
        let (blank, cell) = (Cell::blank(), cell_of(&[0xA1, 0xE8])?);
        assert_eq!(rt; format!(in heap; "{blank}{cell}")?.as_str(), ".A1E8");
        Ok(())
    }

    // What `Debug` writes goes by the name of the panel.
    #[test]
    fn named(rt: HostRuntime) -> Result<(), Fail> {
        let heap = rt.alloc();
        let (grid, rows) = (GridPanel::new(2), RowPanel::new(2));
        let text = format!(in heap; "{grid:?}")?;
        assert!(rt;
            text.starts_with("GridPanel { table: Table { cells: [Cell { places: [0, 0, 0] }, ")
        );
        assert!(rt; text.ends_with(" }] }, ruler: Ruler { columns: 2, cursor: 0 } }"));
        let text = format!(in heap; "{rows:?}")?;
        assert!(rt; text.starts_with("RowPanel { rows: Rows { top: [0, "));
        assert!(rt; text.ends_with(", 0] }, ruler: Ruler { columns: 2, cursor: 0 } }"));
        Ok(())
    }
}
