//! The texts of a page. Made by `page/embed.py` of the files in `page/`.

mod base_style;
mod both_script;
mod chart_script;
mod circle_script;
mod columns_script;
mod deciding_script;
mod elements_script;
mod end_script;
mod lanes_script;
mod one_script;
mod page_script;
mod page_style;
mod pair_style;
mod panels_script;
mod papers_script;
mod picture_script;
mod picture_words_script;
mod program_script;
mod round_script;
mod run_script;
mod sentences_script;
mod source_script;
mod start_script;
mod tables_script;
mod telling_script;
mod template_1;
mod template_2;
mod template_3;
mod template_4;
mod template_5;
mod template_6;
mod two_script;
mod two_start_script;
mod values_script;
mod why_script;
mod world_script;

use std::alloc::AllocError;

/// Adds the text of `page/base.css`, which other pages have too.
pub fn push_base_style(page: &mut String) -> Result<(), AllocError> {
    page.push_str(base_style::TEXT)
}

/// Adds the text of `page/elements.js`, which other pages have too.
pub fn push_elements_script(page: &mut String) -> Result<(), AllocError> {
    page.push_str(elements_script::TEXT)
}

/// Adds the text of `page/program.js`, which other pages have too.
pub fn push_program_script(page: &mut String) -> Result<(), AllocError> {
    page.push_str(program_script::TEXT)
}

/// Adds the text of `page/sentences.js`, which other pages have too.
pub fn push_sentences_script(page: &mut String) -> Result<(), AllocError> {
    page.push_str(sentences_script::TEXT)
}

/// Adds the text of `page/values.js`, which other pages have too.
pub fn push_values_script(page: &mut String) -> Result<(), AllocError> {
    page.push_str(values_script::TEXT)
}

/// Adds what stands before the title.
pub(crate) fn push_head(page: &mut String) -> Result<(), AllocError> {
    page.push_str(template_1::TEXT)
}

/// Adds what stands between the title and the data.
pub(crate) fn push_middle(page: &mut String) -> Result<(), AllocError> {
    page.push_str(template_2::TEXT)?;
    page.push_str(base_style::TEXT)?;
    page.push_str(page_style::TEXT)?;
    page.push_str(template_3::TEXT)
}

/// Adds what stands after the data.
pub(crate) fn push_tail(page: &mut String) -> Result<(), AllocError> {
    page.push_str(template_4::TEXT)?;
    page.push_str(elements_script::TEXT)?;
    page.push_str(run_script::TEXT)?;
    page.push_str(one_script::TEXT)?;
    push_common_scripts(page)?;
    page.push_str(start_script::TEXT)?;
    page.push_str(template_5::TEXT)
}

/// Adds what stands before the title, on a page of two runs.
pub(crate) fn push_pair_head(page: &mut String) -> Result<(), AllocError> {
    page.push_str(template_6::TEXT)
}

/// Adds what stands between the title and the data, on a page of two runs.
pub(crate) fn push_pair_middle(page: &mut String) -> Result<(), AllocError> {
    page.push_str(template_2::TEXT)?;
    page.push_str(base_style::TEXT)?;
    page.push_str(page_style::TEXT)?;
    page.push_str(pair_style::TEXT)?;
    page.push_str(template_3::TEXT)
}

/// Adds what stands after the data, on a page of two runs.
pub(crate) fn push_pair_tail(page: &mut String) -> Result<(), AllocError> {
    page.push_str(template_4::TEXT)?;
    page.push_str(elements_script::TEXT)?;
    page.push_str(run_script::TEXT)?;
    page.push_str(two_script::TEXT)?;
    push_common_scripts(page)?;
    page.push_str(both_script::TEXT)?;
    page.push_str(two_start_script::TEXT)?;
    page.push_str(template_5::TEXT)
}

/// Adds the scripts that both pages have after their own.
fn push_common_scripts(page: &mut String) -> Result<(), AllocError> {
    page.push_str(values_script::TEXT)?;
    page.push_str(program_script::TEXT)?;
    page.push_str(sentences_script::TEXT)?;
    page.push_str(world_script::TEXT)?;
    page.push_str(columns_script::TEXT)?;
    page.push_str(lanes_script::TEXT)?;
    page.push_str(round_script::TEXT)?;
    page.push_str(picture_script::TEXT)?;
    page.push_str(picture_words_script::TEXT)?;
    page.push_str(telling_script::TEXT)?;
    page.push_str(why_script::TEXT)?;
    page.push_str(panels_script::TEXT)?;
    page.push_str(source_script::TEXT)?;
    page.push_str(end_script::TEXT)?;
    page.push_str(circle_script::TEXT)?;
    page.push_str(tables_script::TEXT)?;
    page.push_str(chart_script::TEXT)?;
    page.push_str(papers_script::TEXT)?;
    page.push_str(deciding_script::TEXT)?;
    page.push_str(page_script::TEXT)
}
